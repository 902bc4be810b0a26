// Nodes without subterms: variables and parts.
ghost use Rattle.calculus.specs.Terms.{first, second};
ghost use Rattle.made_types.specs.Listing.{InTypes};
ghost use Rattle.made_nodes.specs.Held.{Workable};
ghost use Rattle.made_nodes.specs.Forms.{VariableSays, GateSays, PartTypeSays, PartSays};

use crate::{Node, Sub};
use answers::Refusal;
use made_types::{Kind, Record};
use making_memory::SECOND;

// A variable of a type, by its number.
pub fn variable(work: &mut [u16], number: u16, ty: u16, place: u16) -> Result<Sub, Refusal>
    requires { InTypes work.old ty }
    ensures { VariableSays work.old number ty place result work.new }
{
    let kind = crate::by_sort(work, ty, 0x11, 0x12);
    let n = Node {
        kind,
        body: number,
        left: 0,
        right: 0,
        place,
    };
    crate::add(work, n, ty, 0)
}

// The type of a part of two inputs in the first edition. This and the next stay two functions: one for both would choose twice by the edition.
fn gate_type(work: &mut [u16], place: u16) -> Result<u16, Refusal>
    requires { Workable work.old }
    ensures { GateSays first work.old place result work.new }
{
    let unary = Record {
        kind: Kind::Arrow,
        left: 0,
        right: 0,
    };
    let t = made_types::listed(work, unary, place)?;
    let gate = Record {
        kind: Kind::Arrow,
        left: 0,
        right: t,
    };
    made_types::listed(work, gate, place)
}

// .. in the second edition, where it takes a pair.
fn paired_type(work: &mut [u16], place: u16) -> Result<u16, Refusal>
    requires { Workable work.old }
    ensures { GateSays second work.old place result work.new }
{
    let pair = Record {
        kind: Kind::Product,
        left: 0,
        right: 0,
    };
    let t = made_types::listed(work, pair, place)?;
    let gate = Record {
        kind: Kind::Arrow,
        left: t,
        right: 0,
    };
    made_types::listed(work, gate, place)
}

fn part_type(work: &mut [u16], inputs: u8, place: u16) -> Result<u16, Refusal>
    requires { Workable work.old }
    ensures { PartTypeSays work.old inputs place result work.new }
{
    if inputs == 0 {
        return Ok(0);
    }
    if inputs == 1 {
        let unary = Record {
            kind: Kind::Arrow,
            left: 0,
            right: 0,
        };
        return made_types::listed(work, unary, place);
    }
    if work[SECOND] == 1 {
        return paired_type(work, place);
    }
    gate_type(work, place)
}

// A part, by its number.
pub fn part(work: &mut [u16], number: u16, place: u16) -> Result<Sub, Refusal>
    requires { Workable work.old }
    ensures { PartSays work.old number place result work.new }
{
    let p = parts::part_of(number);
    let t = part_type(work, p.inputs, place)?;
    let n = Node {
        kind: 0x1A,
        body: number,
        left: t,
        right: 0,
        place,
    };
    crate::add(work, n, t, 0)
}
