// What waits is joined to a term, from the topmost half on.
ghost use Rattle.std.specs.Prelude.{◌<◌};
ghost use Rattle.made_nodes.specs.Held.{Workable};
ghost use Rattle.term_parts.specs.Halves.{CanJoin, OneJoined, JoinedSay};

use crate::halves;
use answers::Refusal;
use made_nodes::{Sub, binders, pairs};

// How a term that waits is joined to the one behind it: as an element of a tuple, or as a pair that was taken apart for it.
#[derive(Clone, Copy, Debug, PartialEq, Eq)]
pub enum Joint {
    Pair,
    Projection,
}

fn join_one(work: &mut [u16], by: Joint, place: u16, a: Sub, f: Sub) -> Result<Sub, Refusal>
    requires { (Workable work.old) × ((a.ty < 256) × (f.ty < 256)) }
    ensures { OneJoined by work.old place a f result work.new }
{
    match by {
        Joint::Pair => pairs::pair(work, place, a, f),
        Joint::Projection => binders::projection(work, place, a, f),
    }
}

// So many halves from one on, and a term: the elements of a tuple and its last one, or the pairs that were taken apart and the body behind them.
pub fn join(work: &mut [u16], by: Joint, from: usize, count: usize, e: Sub) -> Result<Sub, Refusal>
    requires { CanJoin work.old from count e }
    ensures { JoinedSay by work.old from count e result work.new }
{
    let mut f = e;
    for left in (0..count).rev() {
        let h = halves::half_at(work, from + left);
        let a = Sub {
            node: h.node,
            ty: h.ty,
            deep: h.deep,
        };
        f = join_one(work, by, h.place, a, f)?;
    }
    Ok(f)
}
