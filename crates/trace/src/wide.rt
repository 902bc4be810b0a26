// Sixteen traces at once run through the lean netlist that stands in the working memory: the stages of `net` and `free`, over numbers. They
// stay apart from those: the test, the run and the state that is kept differ, and every clause with them, so one function would be no plainer.
ghost use Rattle.std.specs.Prelude.{◌≡◌, ◌≤◌, length};
ghost use Rattle.calculus.specs.Lean.{lean};
ghost use Rattle.calculus.specs.NetRead.{Known};
ghost use Rattle.calculus.specs.Record.{All};
ghost use Rattle.memory.specs.Map.{net_in, Ready};
ghost use Rattle.translator.specs.Made.{Keeps};
ghost use Rattle.trace_calculus.specs.Lanes.{lanes_ran};
ghost use Rattle.trace.specs.Said.{lanes_lent, Safe, Roomy, LanesFreed, LanesSay};
ghost use Rattle.trace.specs.Tables.{FewParts};

use crate::ordering;
use crate::ordering::Order;
use answers::{Reason, Refusal};
use trace_flat::{Sizes, lanes, layout};
use trace_steps::{pins, ticks};
use wiring::Counts;

// The input numbers and the state are of the exact number.
fn lent(inputs: &[u16], state: &[u16], reads: usize, regs: usize) -> bool
    ensures { result ≡ lanes_lent inputs.now state.now reads regs }
{
    inputs.len() == reads && state.len() == regs
}

// 20, then 17, then the run. The state is what the registers show at tick 0, and after the run what they would show next.
fn run(
    work: &mut [u16],
    inputs: &[u16],
    state: &mut [u16],
    out: &mut [u16],
    order: Order,
    ticks: usize,
) -> Result<usize, Refusal>
    requires { (Safe work.old order.end order.settled order.pins ticks) × (Roomy work.old order.end order.settled) }
    ensures { LanesFreed work.old order.end order.settled order.pins ticks inputs.now state.old out.old work.new state.new out.new result }
{
    let regs = ticks::registers(work, order.end);
    let ins = pins::input_pins(&work[..], order.pins);
    let outs = order.pins - ins;
    let reads = ticks * ins;
    let writes = ticks * outs;
    if !lent(inputs, &state[..], reads, regs) {
        return Err(Reason::WrongBits.at(0));
    }
    if out.len() < writes {
        return Err(Reason::ShortOutput.at(writes));
    }
    layout::lay(work, order.end, order.settled, regs, order.pins);
    lanes::wake(work, &state[..], regs);
    let sizes = Sizes {
        settled: order.settled,
        regs,
        ins,
        outs,
    };
    lanes::run(work, inputs, out, sizes, ticks);
    lanes::keep(&work[..], state, regs);
    Ok(writes)
}

// The lean netlist is put in order and run for so many ticks: 19, 20, 17.
pub fn run_net(
    work: &mut [u16],
    inputs: &[u16],
    state: &mut [u16],
    out: &mut [u16],
    counts: Counts,
    ticks: usize,
) -> Result<usize, Refusal>
    requires { (Ready work.old counts.elements counts.wires counts.pins) × (All Known (net_in work.old counts.elements counts.wires counts.pins).elements) × (ticks ≤ 65535) × (FewParts (net_in work.old counts.elements counts.wires counts.pins)) }
    ensures { (LanesSay result out.old out.new state.old state.new (lanes_ran (lean (net_in work.old counts.elements counts.wires counts.pins)) ticks inputs.now state.old (length out.old)))
        × (Keeps work.old work.new) }
{
    let order = ordering::put_in_order(work, counts.elements, counts.wires, counts.pins)?;
    run(work, inputs, state, out, order, ticks)
}
