// Pairs and applications.
ghost use Rattle.std.specs.Prelude.{◌<◌};
ghost use Rattle.made_nodes.specs.Held.{Workable};
ghost use Rattle.made_nodes.specs.Forms.{ProductSays, PairSays, AppliedSays};

use crate::Sub;
use answers::Refusal;
use made_types::{Kind, Record};

// The product of two types. A half that is not sharable counts as the single bit, and the sheet is refused at this node.
fn product(work: &mut [u16], a: u16, b: u16, place: u16) -> Result<u16, Refusal>
    requires { (Workable work.old) × ((a < 256) × (b < 256)) }
    ensures { ProductSays work.old a b place result work.new }
{
    let left = crate::by_sort(work, a, a, 0);
    let right = crate::by_sort(work, b, b, 0);
    let r = Record {
        kind: Kind::Product,
        left,
        right,
    };
    made_types::listed(work, r, place)
}

pub fn pair(work: &mut [u16], place: u16, a: Sub, b: Sub) -> Result<Sub, Refusal>
    requires { (Workable work.old) × ((a.ty < 256) × (b.ty < 256)) }
    ensures { PairSays work.old place a b result work.new }
{
    let t = product(work, a.ty, b.ty, place)?;
    crate::over(work, 0x17, t, place, t, a, b)
}

// By the function's type, or else by the argument's sort.
pub fn applied(work: &mut [u16], place: u16, f: Sub, a: Sub) -> Result<Sub, Refusal>
    requires { (Workable work.old) × ((f.ty < 256) × (a.ty < 256)) }
    ensures { AppliedSays work.old place f a result work.new }
{
    let kind = made_types::kind_of(work, f.ty);
    if kind == 3 {
        let to = made_types::right_of(work, f.ty);
        return crate::over(work, 0x14, 0, place, to, f, a);
    }
    if kind == 4 {
        let to = made_types::right_of(work, f.ty);
        return crate::over(work, 0x16, 0, place, to, f, a);
    }
    let by = crate::by_sort(work, a.ty, 0x14, 0x16);
    crate::over(work, by, 0, place, 0, f, a)
}
