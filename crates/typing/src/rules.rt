// What the typing rules say of type numbers: the types of parts, what a node binds, and the type of a node by its subterms'.
ghost use Rattle.std.specs.Prelude.{◌≡◌, ◌≤◌, ℕ, Bool};
ghost use Rattle.calculus.specs.Types.{bit, prod, arrow};
ghost use Rattle.records.specs.Forms.{rec_in};
ghost use Rattle.records.specs.Editions.{edition_by};
ghost use Rattle.parts.specs.Table.{shape_ty, said_part};
ghost use Rattle.typing.specs.Steps.{both_sides, AnswersTest, stands_for, ty_in, number_below, opening_of, binding_of, wanted_of, enters_of, halves_in, applied_of, paired_of, joined_of, closes_of};

use parts::Part;
use records::Rule;

// Type t is the single bit.
fn is_bit(s: &[u8], t: u8) -> bool
    ensures { result ≡ stands_for (rec_in s.now) bit t }
{
    records::sides_of(s, t).kind == 1
}

// Type t is of a kind that has two sides, and each side passes its test. The kind is a number, as in `records::Sided`: `both_sides`
// compares it.
fn has_sides<L: Fn(u8) -> bool, R: Fn(u8) -> bool>(
    s: &[u8],
    t: u8,
    kind: u8,
    left: L,
    right: R,
) -> bool
    requires { L.IsAlwaysCallable left × R.IsAlwaysCallable right }
    ensures { (f g : ℕ → Bool) → AnswersTest (L.post left) f → AnswersTest (R.post right) g → result ≡ both_sides kind (rec_in s.now t) f g }
{
    let q = records::sides_of(s, t);
    if q.kind != kind {
        return false;
    }
    if !left(q.left) {
        return false;
    }
    right(q.right)
}

// These four questions are a call each: a kind and two tests, which is all in which they differ.
// Type t is the sharable arrow from the bit to the bit.
fn is_unary(s: &[u8], t: u8) -> bool
    ensures { result ≡ stands_for (rec_in s.now) (shape_ty 1) t }
{
    has_sides(s, t, 3, |a| is_bit(s, a), |b| is_bit(s, b))
}

// Type t is the sharable arrow from the bit to such an arrow.
fn is_binary(s: &[u8], t: u8) -> bool
    ensures { result ≡ stands_for (rec_in s.now) (shape_ty 2) t }
{
    has_sides(s, t, 3, |a| is_bit(s, a), |b| is_unary(s, b))
}

// .. or of a shape, a number as in `parts::Part`.
fn has_shape(s: &[u8], t: u8, shape: u8) -> bool
    requires { shape ≤ 2 }
    ensures { result ≡ stands_for (rec_in s.now) (shape_ty shape) t }
{
    match shape {
        0 => is_bit(s, t),
        1 => is_unary(s, t),
        _ => is_binary(s, t),
    }
}

// Type t is the product of two bits.
fn is_pair(s: &[u8], t: u8) -> bool
    ensures { result ≡ stands_for (rec_in s.now) (prod bit bit) t }
{
    has_sides(s, t, 2, |a| is_bit(s, a), |b| is_bit(s, b))
}

// Type t is the sharable arrow from such a product to the bit.
fn is_paired(s: &[u8], t: u8) -> bool
    ensures { result ≡ stands_for (rec_in s.now) (arrow (prod bit bit) bit) t }
{
    has_sides(s, t, 3, |a| is_pair(s, a), |b| is_bit(s, b))
}

// Type t is a part's, in this edition.
pub fn is_type_of(s: &[u8], t: u8, part: Part, second: bool) -> bool
    requires { part.shape ≤ 2 }
    ensures { result ≡ stands_for (rec_in s.now) (ty_in (said_part part) (edition_by second)) t }
{
    if !second {
        return has_shape(s, t, part.shape);
    }
    if part.paired {
        return is_paired(s, t);
    }
    has_shape(s, t, part.shape)
}

// The number wanted where a rule wants a form and not one type.
pub const FORM: u16 = 256;

// The number of a part's type among the sheet's first `types`, or 256. Only a refusal asks for it.
pub fn type_number(s: &[u8], types: usize, part: Part, second: bool) -> u16
    requires { (part.shape ≤ 2) × (types ≤ 256) }
    ensures { result ≡ number_below (stands_for (rec_in s.now) (ty_in (said_part part) (edition_by second))) types 0 }
{
    for k in 0..types {
        let t = k as u8;
        if is_type_of(s, t, part, second) {
            return u16::from(t);
        }
    }
    FORM
}

// What entering a node binds: nothing, or a sharable or a linear variable of a type.
#[derive(Clone, Copy, Debug, PartialEq, Eq)]
pub enum Opening {
    Nothing,
    Shared(u8),
    Linear(u8),
}

// Sheet, rule and a type are three parameters in the functions that follow: the type is the node's own in `opens`, `wanted` and `joined`, and the first
// subterm's in `enters` and `halves_of`, so that no one struct fits them.
//
// None where the written type has the wrong shape.
pub fn opens(s: &[u8], rule: Rule, t: u8) -> Option<Opening>
    ensures { result ≡ opening_of rule t (rec_in s.now t) }
{
    let q = records::sides_of(s, t);
    match rule {
        Rule::Function => {
            if q.kind == 3 {
                Some(Opening::Shared(q.left))
            } else {
                None
            }
        }
        Rule::LinearFunction => {
            if q.kind == 4 {
                Some(Opening::Linear(q.left))
            } else {
                None
            }
        }
        Rule::Pair => {
            if q.kind == 2 {
                Some(Opening::Nothing)
            } else {
                None
            }
        }
        Rule::FixedPoint => {
            if q.kind <= 2 {
                Some(Opening::Shared(t))
            } else {
                None
            }
        }
        _ => Some(Opening::Nothing),
    }
}

// What an opening binds: so many variables, 0 or 1, of a type and a sort. Numbers, since the walk stores them whether or not there is one.
#[derive(Clone, Copy, Debug, PartialEq, Eq)]
pub struct Binding {
    pub count: usize,
    pub ty: u8,
    pub sort: u8,
}

pub fn bound(o: Opening) -> Binding
    ensures { result ≡ binding_of o }
{
    match o {
        Opening::Nothing => Binding {
            count: 0,
            ty: 0,
            sort: 0,
        },
        Opening::Shared(ty) => Binding {
            count: 1,
            ty,
            sort: 0,
        },
        Opening::Linear(ty) => Binding {
            count: 1,
            ty,
            sort: 1,
        },
    }
}

// The type that the body of a function or a fixed point of type t must have.
pub fn wanted(s: &[u8], rule: Rule, t: u8) -> u8
    ensures { result ≡ wanted_of rule t (rec_in s.now t) }
{
    match rule {
        Rule::FixedPoint => t,
        _ => records::sides_of(s, t).right,
    }
}

// Between two subterms: the first one's type t has the form that the rule wants, a product at a projection, a sharable type at 1B.
pub fn enters(s: &[u8], rule: Rule, t: u8) -> bool
    ensures { result ≡ enters_of rule (rec_in s.now t) }
{
    match rule {
        Rule::Projection => records::sides_of(s, t).kind == 2,
        Rule::Naming => records::sides_of(s, t).kind <= 2,
        _ => true,
    }
}

// The types of the variables that are bound between two subterms, the first one's type being t: a projection's two, or the one of 1B.
#[derive(Clone, Copy, Debug, PartialEq, Eq)]
pub struct Halves {
    pub first: u8,
    pub second: u8,
}

pub fn halves_of(s: &[u8], rule: Rule, t: u8) -> Halves
    ensures { result ≡ halves_in rule t (rec_in s.now t) }
{
    let Rule::Projection = rule else {
        return Halves {
            first: t,
            second: 0,
        };
    };
    let q = records::sides_of(s, t);
    Halves {
        first: q.left,
        second: q.right,
    }
}

// Two types that do not fit: the type number wanted and the one found.
#[derive(Clone, Copy, Debug, PartialEq, Eq)]
pub struct Misfit {
    pub wanted: u16,
    pub found: u8,
}

// A function of type f, an arrow of kind k, at an argument of type a.
fn applied(s: &[u8], k: u8, f: u8, a: u8) -> Result<u8, Misfit>
    ensures { result ≡ applied_of (rec_in s.now f) k f a }
{
    let q = records::sides_of(s, f);
    if q.kind != k {
        return Err(Misfit {
            wanted: FORM,
            found: f,
        });
    }
    if a != q.left {
        return Err(Misfit {
            wanted: u16::from(q.left),
            found: a,
        });
    }
    Ok(q.right)
}

// A pair of the written type t, of two terms of types a and b. The first half that differs is named.
fn paired(s: &[u8], t: u8, a: u8, b: u8) -> Result<u8, Misfit>
    ensures { result ≡ paired_of (rec_in s.now t) t a b }
{
    let q = records::sides_of(s, t);
    if a != q.left {
        return Err(Misfit {
            wanted: u16::from(q.left),
            found: a,
        });
    }
    if b != q.right {
        return Err(Misfit {
            wanted: u16::from(q.right),
            found: b,
        });
    }
    Ok(t)
}

// Types of the two subterms to the type of the node.
pub fn joined(s: &[u8], rule: Rule, t: u8, a: u8, b: u8) -> Result<u8, Misfit>
    ensures { result ≡ joined_of (rec_in s.now) rule t a b }
{
    match rule {
        Rule::Application => applied(s, 3, a, b),
        Rule::LinearApplication => applied(s, 4, a, b),
        Rule::Pair => paired(s, t, a, b),
        _ => Ok(b),
    }
}

// The binders that go out of scope: a projection's two, or the one of 1B.
// A count, and no conversion by hand: `closes_of` counts the binders of each of the eleven rules.
pub fn closes(rule: Rule) -> usize
    ensures { result ≡ closes_of rule }
{
    match rule {
        Rule::Projection => 2,
        Rule::Naming => 1,
        _ => 0,
    }
}
