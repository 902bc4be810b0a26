// Ticks over the flat layout, one trace, a byte a bit.
ghost use Rattle.std.specs.Prelude.{◌≡◌, ◌≤◌, length};
ghost use Rattle.memory.specs.Map.{memory_size};
ghost use Rattle.trace_steps.specs.Map.{order_at};
ghost use Rattle.trace_steps.specs.Words.{lane_zero};
ghost use Rattle.trace_flat.specs.Flat.{flat_most, shown_at, Stretched};
ghost use Rattle.trace_flat.specs.FlatTicks.{Flat, counts, flat_wake, FlatFits, FlatRan};

use crate::ticks;
use crate::ticks::Sizes;

// The registers' start bits.
pub fn wake(work: &mut [u16], starts: &[u8], regs: usize)
    requires { (memory_size ≤ length work.old) × ((regs ≤ flat_most) × (regs ≤ length starts.now)) }
    ensures { Stretched shown_at order_at (flat_wake starts.now) regs work.old work.new }
{
    ticks::wake(work, starts, regs);
}

// So many ticks, each with so many input and output bits.
pub fn run(work: &mut [u16], inputs: &[u8], out: &mut [u8], sizes: Sizes, ticks: usize)
    requires { (Flat work.old sizes.settled sizes.regs sizes.ins sizes.outs) × (FlatFits (length inputs.now) (length out.old) sizes.ins sizes.outs ticks) }
    ensures { FlatRan lane_zero (counts sizes.settled sizes.regs sizes.ins sizes.outs) inputs.now ticks work.old out.old work.new out.new }
{
    ticks::run(work, inputs, out, sizes, ticks);
}
