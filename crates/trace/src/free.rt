// A netlist without rings is run, where the bits lent and the room are right.
ghost use Rattle.std.specs.Prelude.{◌≡◌};
ghost use Rattle.trace.specs.Said.{lent_in, Safe, Roomy, Freed};

use crate::ordering::Order;
use answers::{Reason, Refusal};
use trace_flat::{Sizes, bits, layout};
use trace_steps::{pins, ticks};

// The input and start bits are of the exact number, and bits.
fn lent(inputs: &[u8], starts: &[u8], reads: usize, regs: usize) -> bool
    ensures { result ≡ lent_in inputs.now starts.now reads regs }
{
    inputs.len() == reads
        && starts.len() == regs
        && pins::all_bits(inputs)
        && pins::all_bits(starts)
}

// 20, then 17, then the run.
pub fn run(
    work: &mut [u16],
    inputs: &[u8],
    starts: &[u8],
    out: &mut [u8],
    order: Order,
    ticks: usize,
) -> Result<usize, Refusal>
    requires { (Safe work.old order.end order.settled order.pins ticks) × (Roomy work.old order.end order.settled) }
    ensures { Freed work.old order.end order.settled order.pins ticks inputs.now starts.now out.old work.new out.new result }
{
    let regs = ticks::registers(work, order.end);
    let ins = pins::input_pins(&work[..], order.pins);
    let outs = order.pins - ins;
    let reads = ticks * ins;
    let writes = ticks * outs;
    if !lent(inputs, starts, reads, regs) {
        return Err(Reason::WrongBits.at(0));
    }
    if out.len() < writes {
        return Err(Reason::ShortOutput.at(writes));
    }
    layout::lay(work, order.end, order.settled, regs, order.pins);
    bits::wake(work, starts, regs);
    let sizes = Sizes {
        settled: order.settled,
        regs,
        ins,
        outs,
    };
    bits::run(work, inputs, out, sizes, ticks);
    Ok(writes)
}
