// Ticks over the flat layout, sixteen traces, one in each bit of a number.
ghost use Rattle.std.specs.Prelude.{◌≡◌, ◌≤◌, length};
ghost use Rattle.memory.specs.Map.{memory_size};
ghost use Rattle.trace_steps.specs.Map.{order_at};
ghost use Rattle.trace_steps.specs.Words.{entire};
ghost use Rattle.trace_flat.specs.Flat.{flat_most, shown_at, Stretched};
ghost use Rattle.trace_flat.specs.FlatTicks.{Flat, counts, flat_wake, flat_keep, WrittenBy, FlatFits, FlatRan};

use crate::layout::SHOWN;
use crate::ticks;
use crate::ticks::Sizes;

// What the registers show at tick 0.
pub fn wake(work: &mut [u16], state: &[u16], regs: usize)
    requires { (memory_size ≤ length work.old) × ((regs ≤ flat_most) × (regs ≤ length state.now)) }
    ensures { Stretched shown_at order_at (flat_wake state.now) regs work.old work.new }
{
    ticks::wake(work, state, regs);
}

// What they would show at the next tick.
pub fn keep(work: &[u16], state: &mut [u16], regs: usize)
    requires { (memory_size ≤ length work.now) × ((regs ≤ flat_most) × (regs ≤ length state.old)) }
    ensures { WrittenBy (flat_keep work.now) regs state.old state.new }
{
    for j in 0..regs {
        state[j] = work[SHOWN + j];
    }
}

// So many ticks, each with so many input and output numbers.
pub fn run(work: &mut [u16], inputs: &[u16], out: &mut [u16], sizes: Sizes, ticks: usize)
    requires { (Flat work.old sizes.settled sizes.regs sizes.ins sizes.outs) × (FlatFits (length inputs.now) (length out.old) sizes.ins sizes.outs ticks) }
    ensures { FlatRan entire (counts sizes.settled sizes.regs sizes.ins sizes.outs) inputs.now ticks work.old out.old work.new out.new }
{
    ticks::run(work, inputs, out, sizes, ticks);
}
