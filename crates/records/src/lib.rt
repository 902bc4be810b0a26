// One record of a sheet: a type or a node, or a refusal.
#![tactic(auto)]

ghost use Rattle.std.specs.Prelude.{◌≡◌, get_or, take, drop, length, ◌+◌, ◌≤◌};
ghost use Rattle.records.specs.Record.{shape_of, form_of, record_at, no_node, node_at};
ghost use Rattle.records.specs.Forms.{said_form, rec_in};
ghost use Rattle.records.specs.TypeNumbers.{sided_of, bound_in};

use answers::{Reason, Refusal};

// The rule for a type.
#[derive(Clone, Copy, Debug, PartialEq, Eq)]
pub enum TypeRule {
    Bit,
    Product,
    Arrow,
    Linear,
}

// The rule for a node.
#[derive(Clone, Copy, Debug, PartialEq, Eq)]
pub enum Rule {
    Variable,
    LinearVariable,
    Function,
    Application,
    LinearFunction,
    LinearApplication,
    Pair,
    Projection,
    FixedPoint,
    Constant,
    Naming,
}

// What a kind byte fixes: the body's length, of a node the number of subterms, and the rule.
#[derive(Clone, Copy, Debug, PartialEq, Eq)]
pub enum Shape {
    Type(usize, TypeRule),
    Node(usize, usize, Rule),
}

// One decision over the kind byte; no shape where the kind is unknown. This is where a byte of a sheet becomes a rule: a number goes in, as
// in the definition of the same name, and there is one range for types and one for nodes.
pub fn shape_of(kind: u8) -> Option<Shape>
    ensures { result ≡ shape_of kind }
{
    match kind {
        0x01..=0x04 => match kind {
            0x01 => Some(Shape::Type(0, TypeRule::Bit)),
            0x02 => Some(Shape::Type(2, TypeRule::Product)),
            0x03 => Some(Shape::Type(2, TypeRule::Arrow)),
            _ => Some(Shape::Type(2, TypeRule::Linear)),
        },
        0x11..=0x1B => match kind {
            0x11 => Some(Shape::Node(1, 0, Rule::Variable)),
            0x12 => Some(Shape::Node(1, 0, Rule::LinearVariable)),
            0x13 => Some(Shape::Node(1, 1, Rule::Function)),
            0x14 => Some(Shape::Node(0, 2, Rule::Application)),
            0x15 => Some(Shape::Node(1, 1, Rule::LinearFunction)),
            0x16 => Some(Shape::Node(0, 2, Rule::LinearApplication)),
            0x17 => Some(Shape::Node(1, 2, Rule::Pair)),
            0x18 => Some(Shape::Node(0, 2, Rule::Projection)),
            0x19 => Some(Shape::Node(1, 1, Rule::FixedPoint)),
            0x1A => Some(Shape::Node(2, 0, Rule::Constant)),
            _ => Some(Shape::Node(0, 2, Rule::Naming)),
        },
        _ => None,
    }
}

// A type record: the single bit, or a product, a sharable or a linear arrow with its two type numbers.
#[derive(Clone, Copy, Debug, PartialEq, Eq)]
pub enum Form {
    Bit,
    Product(u8, u8),
    Arrow(u8, u8),
    Linear(u8, u8),
}

fn form_of(rule: TypeRule, left: u8, right: u8) -> Form
    ensures { result ≡ form_of rule left right }
{
    match rule {
        TypeRule::Bit => Form::Bit,
        TypeRule::Product => Form::Product(left, right),
        TypeRule::Arrow => Form::Arrow(left, right),
        TypeRule::Linear => Form::Linear(left, right),
    }
}

// A node's record: its rule, its two bytes (0 where the body is shorter), its number of subterms, and the offset past it.
#[derive(Clone, Copy, Debug, PartialEq, Eq)]
pub struct Node {
    pub rule: Rule,
    pub first: u8,
    pub second: u8,
    pub subterms: usize,
    pub next: usize,
}

// What stands at an offset: a type and the offset past its record, or a node.
#[derive(Clone, Copy, Debug, PartialEq, Eq)]
pub enum Record {
    Type(Form, usize),
    Node(Node),
}

// The body's byte j, and 0 where the body is shorter.
fn byte_of(body: &[u8], j: usize) -> u8
    ensures { result ≡ get_or body.now j 0 }
{
    if j < body.len() { body[j] } else { 0 }
}

// The record at an offset, or refusal 3 or 4. Inside the term no type's kind is known. It is always inlined: its answer is read once for each record of a
// sheet, and where it comes back in memory, `sheet::stretch` takes two fifths more instructions.
#[inline(always)]
pub fn record_at(s: &[u8], at: usize, term: bool) -> Result<Record, Refusal>
    ensures { result ≡ record_at term s.now at }
{
    if s.len() <= at {
        return Err(Reason::CutShort.at(at));
    }
    let Some(shape) = shape_of(s[at]) else {
        return Err(Reason::UnknownKind.at(at));
    };
    let from = at + 1;
    match shape {
        Shape::Type(n, rule) => {
            if term {
                return Err(Reason::UnknownKind.at(at));
            }
            if s.len() - from < n {
                return Err(Reason::CutShort.at(at));
            }
            let body = &s[from..from + n];
            let form = form_of(rule, byte_of(body, 0), byte_of(body, 1));
            Ok(Record::Type(form, from + n))
        }
        Shape::Node(n, subterms, rule) => {
            if s.len() - from < n {
                return Err(Reason::CutShort.at(at));
            }
            let body = &s[from..from + n];
            Ok(Record::Node(Node {
                rule,
                first: byte_of(body, 0),
                second: byte_of(body, 1),
                subterms,
                next: from + n,
            }))
        }
    }
}

fn no_node() -> Node
    ensures { result ≡ no_node }
{
    Node {
        rule: Rule::Variable,
        first: 0,
        second: 0,
        subterms: 0,
        next: 0,
    }
}

// The node at an offset of a sheet that has been read, where one stands; one of zeros elsewhere. A walk over a read sheet asks for
// nothing else, and is spared the answer's other cases.
pub fn node_at(s: &[u8], at: usize) -> Node
    ensures { result ≡ node_at s.now at }
{
    if s.len() <= at {
        return no_node();
    }
    let from = at + 1;
    let Some(shape) = shape_of(s[at]) else {
        return no_node();
    };
    let Shape::Node(n, subterms, rule) = shape else {
        return no_node();
    };
    if s.len() - from < n {
        return no_node();
    }
    let body = &s[from..from + n];
    Node {
        rule,
        first: byte_of(body, 0),
        second: byte_of(body, 1),
        subterms,
        next: from + n,
    }
}

// The record of type t, in a sheet whose types have been read: the first is the single bit, of one byte, and every other has three.
pub fn type_at(s: &[u8], t: u8) -> Form
    ensures { said_form result ≡ rec_in s.now t }
{
    if t == 0 {
        return Form::Bit;
    }
    let at = 3 * usize::from(t) - 2;
    if s.len() < at + 3 {
        return Form::Bit;
    }
    let Some(shape) = shape_of(s[at]) else {
        return Form::Bit;
    };
    let Shape::Type(_, rule) = shape else {
        return Form::Bit;
    };
    form_of(rule, s[at + 1], s[at + 2])
}

// A type record as numbers: its kind, 1 to 4, and its two sides, 0 for the single bit. They stay numbers: the
// definition `sided_of` has them so, and the typing rules (`both_sides`, `opening_of`, `applied_of`) compare the kind as a number.
#[derive(Clone, Copy, Debug, PartialEq, Eq)]
pub struct Sided {
    pub kind: u8,
    pub left: u8,
    pub right: u8,
}

pub fn sides_of(s: &[u8], t: u8) -> Sided
    ensures { result ≡ sided_of (rec_in s.now t) }
{
    match type_at(s, t) {
        Form::Bit => Sided {
            kind: 1,
            left: 0,
            right: 0,
        },
        Form::Product(left, right) => Sided {
            kind: 2,
            left,
            right,
        },
        Form::Arrow(left, right) => Sided {
            kind: 3,
            left,
            right,
        },
        Form::Linear(left, right) => Sided {
            kind: 4,
            left,
            right,
        },
    }
}

// The type that a function or a fixed point binds.
pub fn bound_by(s: &[u8], node: Node) -> u8
    ensures { result ≡ bound_in s.now node }
{
    let first = node.first;
    let rule = node.rule;
    match rule {
        Rule::FixedPoint => first,
        _ => sides_of(s, first).left,
    }
}

// The library's conversion, under a name of this crate: `wide-determined` (proofs/Determined.antt) speaks of it.
pub fn wide(x: u8) -> usize
    ensures { result ≡ x }
{
    usize::from(x)
}
