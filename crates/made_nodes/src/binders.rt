// Nodes that bind: functions, fixed points, names for terms, and pairs taken apart.
ghost use Rattle.std.specs.Prelude.{◌+◌, ◌≤◌, ◌<◌};
ghost use Rattle.made_nodes.specs.Held.{Workable};
ghost use Rattle.made_nodes.specs.Forms.{ArrowSays, FunctionSays, FunctionsSay, FixSays, NameAppliedSays, NamingSays, ProjectionSays};

use crate::Sub;
use answers::Refusal;
use made_types::{Kind, Record};
use making_memory::{SCOPE, SECOND};

// The arrow from a type, of that type's sort.
fn arrow(work: &mut [u16], t: u16, to: u16, place: u16) -> Result<u16, Refusal>
    requires { (Workable work.old) × ((t < 256) × (to < 256)) }
    ensures { ArrowSays work.old t to place result work.new }
{
    let kind = crate::by_sort(work, t, Kind::Arrow, Kind::Linear);
    let r = Record {
        kind,
        left: t,
        right: to,
    };
    made_types::listed(work, r, place)
}

// A function of a variable of a type, over a body.
pub fn function(work: &mut [u16], place: u16, t: u16, e: Sub) -> Result<Sub, Refusal>
    requires { (Workable work.old) × ((t < 256) × (e.ty < 256)) }
    ensures { FunctionSays work.old place t e result work.new }
{
    let kind = crate::by_sort(work, t, 0x13, 0x15);
    let w = arrow(work, t, e.ty, place)?;
    crate::under(work, kind, w, place, w, e)
}

// Functions of the variables that stand in the scope from an entry on, the last the innermost.
pub fn functions(work: &mut [u16], from: u16, count: u16, t: u16, e: Sub) -> Result<Sub, Refusal>
    requires { (Workable work.old) × ((t < 256) × ((e.ty < 256) × (from + count ≤ 1024))) }
    ensures { FunctionsSay work.old from count t e result work.new }
{
    let mut f = e;
    for left in (0..count).rev() {
        let entry = from + left;
        let place = work[SCOPE + 2 * (entry as usize)];
        f = function(work, place, t, f)?;
    }
    Ok(f)
}

pub fn fixed_point(work: &mut [u16], place: u16, t: u16, e: Sub) -> Result<Sub, Refusal>
    requires { (Workable work.old) × (t < 256) }
    ensures { FixSays work.old place t e result work.new }
{
    crate::under(work, 0x19, t, place, t, e)
}

// A name for a value as a function applied.
fn name_applied(work: &mut [u16], place: u16, v: Sub, e: Sub) -> Result<Sub, Refusal>
    requires { (Workable work.old) × ((v.ty < 256) × (e.ty < 256)) }
    ensures { NameAppliedSays work.old place v e result work.new }
{
    let kind = crate::by_sort(work, v.ty, 0x14, 0x16);
    let f = function(work, place, v.ty, e)?;
    crate::over(work, kind, 0, place, e.ty, f, v)
}

// A projection with one variable in the second edition; in the first, and for a circuit, which 1B cannot name, a function applied.
pub fn naming(work: &mut [u16], place: u16, v: Sub, e: Sub) -> Result<Sub, Refusal>
    requires { (Workable work.old) × ((v.ty < 256) × (e.ty < 256)) }
    ensures { NamingSays work.old place v e result work.new }
{
    if work[SECOND] == 1 {
        if made_types::shares(work, v.ty) {
            return crate::over(work, 0x1B, 0, place, e.ty, v, e);
        }
    }
    name_applied(work, place, v, e)
}

// A projection of a term, over a body.
pub fn projection(work: &mut [u16], place: u16, v: Sub, e: Sub) -> Result<Sub, Refusal>
    requires { (Workable work.old) × (e.ty < 256) }
    ensures { ProjectionSays work.old place v e result work.new }
{
    crate::over(work, 0x18, 0, place, e.ty, v, e)
}
