// A recorded trace run through the lean netlist of the full one that stands in the working memory. What stands where during a run is said in
// trace_steps/specs/Map.
ghost use Rattle.std.specs.Prelude.{◌≤◌, length};
ghost use Rattle.calculus.specs.Lean.{lean};
ghost use Rattle.calculus.specs.NetRead.{Known};
ghost use Rattle.calculus.specs.Record.{All};
ghost use Rattle.memory.specs.Map.{net_in, Ready};
ghost use Rattle.translator.specs.Made.{Keeps};
ghost use Rattle.trace_calculus.specs.Trace.{ran};
ghost use Rattle.translator.specs.Said.{AnswerSays};
ghost use Rattle.trace.specs.Tables.{FewParts};

use crate::{free, ordering};
use answers::Refusal;
use wiring::Counts;

// The lean netlist is put in order and run for so many ticks: 19, 20, 17.
pub fn run_net(
    work: &mut [u16],
    inputs: &[u8],
    starts: &[u8],
    out: &mut [u8],
    counts: Counts,
    ticks: usize,
) -> Result<usize, Refusal>
    requires { (Ready work.old counts.elements counts.wires counts.pins) × (All Known (net_in work.old counts.elements counts.wires counts.pins).elements) × (ticks ≤ 65535) × (FewParts (net_in work.old counts.elements counts.wires counts.pins)) }
    ensures { (AnswerSays result out.old out.new (ran (lean (net_in work.old counts.elements counts.wires counts.pins)) ticks inputs.now starts.now (length out.old)))
        × (Keeps work.old work.new) }
{
    let order = ordering::put_in_order(work, counts.elements, counts.wires, counts.pins)?;
    free::run(work, inputs, starts, out, order, ticks)
}
