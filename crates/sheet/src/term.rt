// The term of a sheet: refusals 3 to 5 and 8.
ghost use Rattle.std.specs.Prelude.{◌≡◌};
ghost use Rattle.calculus.specs.Read.{read_term};
ghost use Rattle.records.specs.Editions.{edition_by, known_rule};
ghost use Rattle.sheet.specs.Said.{mistyped, said_head, limits_of_lem, opens, said_span, spanned};

use answers::{Reason, Refusal};
use records::{Node, Record, Rule};

const MOST_NODES: usize = 2048;

// A node's record: where the next record is due and the number of subterms.
#[derive(Clone, Copy, Debug, PartialEq, Eq)]
pub struct Head {
    pub next: usize,
    pub subterms: usize,
}

// A type number that a node's record holds names no type.
fn unknown_type(r: Node, types: usize) -> bool
    ensures { result ≡ mistyped r.rule r.first r.second types }
{
    let rule = r.rule;
    match rule {
        Rule::Function | Rule::LinearFunction | Rule::Pair | Rule::FixedPoint => {
            types <= usize::from(r.first)
        }
        Rule::Constant => types <= usize::from(r.second),
        _ => false,
    }
}

// The edition knows a node's rule: 1B stands in the second alone.
fn known(rule: Rule, second: bool) -> bool
    ensures { result ≡ known_rule (edition_by second) rule }
{
    let Rule::Naming = rule else {
        return true;
    };
    second
}

// A whole node's record: kind, count, depth, type number. `more` is how many levels of depth there may still be.
fn limits(
    r: Node,
    at: usize,
    count: usize,
    more: usize,
    types: usize,
    second: bool,
) -> Result<Head, Refusal>
    ensures { said_head result ≡ limits_of_lem (edition_by second) r at count more types }
{
    let rule = r.rule;
    let here = known(rule, second);
    if !here {
        return Err(Reason::UnknownKind.at(at));
    }
    if MOST_NODES <= count {
        return Err(Reason::PastLimit.at(at));
    }
    if more == 0 {
        return Err(Reason::PastLimit.at(at));
    }
    if unknown_type(r, types) {
        return Err(Reason::UnknownType.at(at));
    }
    Ok(Head {
        next: r.next,
        subterms: r.subterms,
    })
}

// The refusal of a record that cannot be read is passed on, which inside the term is what a type's kind is too: no type comes back, and the
// last case stands only because a match has every case.
fn head_at(
    s: &[u8],
    at: usize,
    count: usize,
    more: usize,
    types: usize,
    second: bool,
) -> Result<Head, Refusal>
    ensures { said_head result ≡ opens (edition_by second) more s.now types at count }
{
    let record = records::record_at(s, at, true)?;
    match record {
        Record::Node(r) => limits(r, at, count, more, types, second),
        Record::Type(_, _) => Err(Reason::UnknownKind.at(at)),
    }
}

// The end of a term: where the next record is due and how many nodes there have been.
#[derive(Clone, Copy, Debug, PartialEq, Eq)]
pub struct Span {
    pub next: usize,
    pub nodes: usize,
}

// The term at an offset, with `count` nodes before it.
// `head_at`, `limits` and this function share offset, count and levels, which are others at each call, and sheet, types and edition, which never
// change. They stay parameters: a struct of the first would be made anew at each call, and one of the others, which `read_term` too would have to
// make, would be read through a pointer at each of 64 levels.
pub fn span_at(
    s: &[u8],
    at: usize,
    count: usize,
    more: usize,
    types: usize,
    second: bool,
) -> Result<Span, Refusal>
    ensures { said_span result ≡ spanned (read_term (edition_by second) more s.now types at count) }
{
    let head = head_at(s, at, count, more, types, second)?;
    let nodes = count + 1;
    if head.subterms == 0 {
        return Ok(Span {
            next: head.next,
            nodes,
        });
    }
    let first = span_at(s, head.next, nodes, more - 1, types, second)?;
    if head.subterms == 1 {
        return Ok(first);
    }
    span_at(s, first.next, first.nodes, more - 1, types, second)
}
