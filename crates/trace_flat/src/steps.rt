// The steps of a tick over the flat layout, for sixteen lanes; a run of one trace looks at lane 0 alone.
ghost use Rattle.std.specs.Prelude.{◌≡◌, ◌≤◌, ◌<◌, length, get_or};
ghost use Rattle.memory.specs.Map.{memory_size};
ghost use Rattle.trace_steps.specs.Map.{order_at};
ghost use Rattle.trace_flat.specs.Flat.{flat_most, gates_at, ins_at, next_at, shown_at, Stretched, form_word, there_at, FlatGate, Gates, flat_step, Sources, flat_hold, flat_turn};

use crate::layout::{FIRST, GATES, NEXT, SECOND, SHOWN, SOURCES, THIRD};

// All gates in one form: with b inverted, a and b or a or b differ from a alone, or from b alone, where a is and b is not. No branch, and no table of kinds.
fn form(a: u16, b: u16, c: u16) -> u16
    ensures { result ≡ form_word a b c }
{
    (a & (b ^ 65535)) ^ c
}

// The bits at the place that stands at i.
pub(crate) fn there(work: &[u16], i: usize) -> u16
    requires { (i < length work.now) × (get_or work.now i 0 < length work.now) }
    ensures { result ≡ there_at work.now i }
{
    work[work[i] as usize]
}

// The j-th gate gets its bits.
fn step(work: &mut [u16], j: usize)
    requires { FlatGate work.old j }
    ensures { work.new ≡ flat_step j work.old }
{
    let a = there(&work[..], FIRST + j);
    let b = there(&work[..], SECOND + j);
    let c = there(&work[..], THIRD + j);
    work[GATES + j] = form(a, b, c);
}

// Every gate gets its bits, four in a turn: a turn's own instructions are as many as half a gate's.
pub fn pass(work: &mut [u16], settled: usize)
    requires { Gates work.old settled }
    ensures { Stretched gates_at ins_at flat_step settled work.old work.new }
{
    for t in 0..settled / 4 {
        let j = 4 * t;
        step(work, j);
        step(work, j + 1);
        step(work, j + 2);
        step(work, j + 3);
    }
    for j in settled / 4 * 4..settled {
        step(work, j);
    }
}

// What each register shows next ..
pub fn hold(work: &mut [u16], regs: usize)
    requires { Sources work.old regs }
    ensures { Stretched next_at shown_at flat_hold regs work.old work.new }
{
    for j in 0..regs {
        work[NEXT + j] = there(&work[..], SOURCES + j);
    }
}

// .. it shows.
pub fn turn(work: &mut [u16], regs: usize)
    requires { (memory_size ≤ length work.old) × (regs ≤ flat_most) }
    ensures { Stretched shown_at order_at flat_turn regs work.old work.new }
{
    for j in 0..regs {
        work[SHOWN + j] = work[NEXT + j];
    }
}
