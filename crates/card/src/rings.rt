// The kept ring points of the lean netlist that stands in the working memory by terminal (18 of L1, 28 of L12).
ghost use Rattle.std.specs.Prelude.{◌≡◌, cond, ◌-◌, ◌≤◌, ◌<◌};
ghost use Rattle.lean.specs.Layout.{LeanReady};
ghost use Rattle.card.specs.Rings.{ring_by, ring_at, lowest_from, RingFree};

use lean::{KIND, LEAN};
use memory::POINT;

// So many terminals are first looked at without a way out, so that the compiler takes several at once.
const BLOCK: usize = 512;

// The memory, the end and the pins stay three arguments: of the functions here none reads the number of pins, which is there for `LeanReady` alone, and
// `judge`, `unread`, `mark_wires` and `mark_pins` change the memory between two looks.
//
// x is the output of one: a point's, whose input has a wire.
fn is_ring_at(work: &[u16], end: usize, pins: usize, x: usize) -> bool
    requires { LeanReady work.now end pins × (x < end) }
    ensures { result ≡ ring_at work.now x }
{
    if work[LEAN + x] != KIND + POINT {
        return false;
    }
    work[LEAN + (x - 1)] != 0
}

// The input of the lowest whose output stands at `from` or behind it.
fn lowest_from(work: &[u16], end: usize, pins: usize, from: usize) -> Option<usize>
    requires { LeanReady work.now end pins }
    ensures { result ≡ lowest_from work.now (end - from) from }
{
    for x in from..end {
        if is_ring_at(work, end, pins, x) {
            return Some(x - 1);
        }
    }
    None
}

// 1 where the entry v of an output, and u of the terminal before it, tell one; else 0.
fn ring_of(v: u16, u: u16) -> u16
    ensures { result ≡ cond (ring_by v u) 1 0 }
{
    if v != KIND + POINT {
        return 0;
    }
    if u == 0 { 0 } else { 1 }
}

// How many there are in a block of outputs.
fn rings_in(work: &[u16], end: usize, pins: usize, from: usize, to: usize) -> u16
    requires { LeanReady work.now end pins × ((from ≤ to) × (to ≤ end)) }
    ensures { result ≡ 0 → RingFree work.now from to }
{
    let mut sum: u16 = 0;
    for x in from..to {
        sum += ring_of(work[LEAN + x], work[LEAN + x - 1]);
    }
    sum
}

// The end of the block that begins at x.
fn block_end(end: usize, x: usize) -> usize
    requires { (x < end) × (end ≤ 8192) }
    ensures { (x < result) × (result ≤ end) }
{
    if end - x < BLOCK { end } else { x + BLOCK }
}

// The input of the lowest. A jump from block to block, no `step_by`: the last block is shorter, so its end is computed in any case.
pub fn lowest(work: &[u16], end: usize, pins: usize) -> Option<usize>
    requires { LeanReady work.now end pins }
    ensures { result ≡ lowest_from work.now end 0 }
{
    let mut x: usize = 0;
    while x < end {
        let to = block_end(end, x);
        if rings_in(work, end, pins, x, to) != 0 {
            return lowest_from(work, end, pins, x);
        }
        x = to;
    }
    None
}
