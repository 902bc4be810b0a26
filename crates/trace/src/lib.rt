// The calls that run a recorded trace, or sixteen at once, through the lean netlist of a sheet.
#![tactic(auto)]

mod free;
mod net;
pub mod ordering;
mod tables;
mod wide;

ghost use Rattle.std.specs.Prelude.{◌≡◌, length};
ghost use Rattle.translator.specs.Made.{Keeps};
ghost use Rattle.translator.specs.Said.{AnswerSays, called};
ghost use Rattle.trace_calculus.specs.Trace.{trace, run_call};
ghost use Rattle.trace_calculus.specs.Lanes.{lanes_trace, lanes_call};
ghost use Rattle.trace.specs.Said.{LanesSay, lanes_called};

use answers::Refusal;

// `run_sheet` and `lanes_sheet` stay two functions: a trace has start bits that are read, sixteen traces have a state that is written, and their clauses,
// by `AnswerSays` and by `LanesSay`, have only `Keeps` in common. The buffers go one by one through `run`, `lanes`, `run_sheet`, `lanes_sheet` and
// `run_net`: the caller lends each, and the clauses say of each alone what is left in it.
//
// The netlist is made and run. The working memory is not yet cleared.
fn run_sheet(
    sheet: &[u8],
    inputs: &[u8],
    starts: &[u8],
    out: &mut [u8],
    work: &mut [u16],
    ticks: u16,
) -> Result<usize, Refusal>
    ensures { (AnswerSays result out.old out.new (trace (length work.old) sheet.now ticks inputs.now starts.now (length out.old)))
        × (Keeps work.old work.new) }
{
    let made = translator::make(sheet, work, true)?;
    net::run_net(work, inputs, starts, out, made.counts, ticks as usize)
}

// The lean netlist of a sheet is run for so many ticks. Lent are the bits of its input pins, in pin order, tick after tick, and one start
// bit for each register by rising terminal; written are the bits of its output pins, one byte a bit. Or the run is refused, and the output
// stays. The working memory is left as by every call.
pub fn run(
    sheet: &[u8],
    inputs: &[u8],
    starts: &[u8],
    out: &mut [u8],
    work: &mut [u16],
    ticks: u16,
) -> Result<usize, Refusal>
    ensures { called result out.new work.new ≡ run_call sheet.now inputs.now starts.now ticks out.old work.old }
{
    let r = run_sheet(sheet, inputs, starts, out, work, ticks);
    translator::clear(work);
    r
}

// The netlist is made and run for sixteen traces. The working memory is not yet cleared.
fn lanes_sheet(
    sheet: &[u8],
    inputs: &[u16],
    state: &mut [u16],
    out: &mut [u16],
    work: &mut [u16],
    ticks: u16,
) -> Result<usize, Refusal>
    ensures { (LanesSay result out.old out.new state.old state.new (lanes_trace (length work.old) sheet.now ticks inputs.now state.old (length out.old)))
        × (Keeps work.old work.new) }
{
    let made = translator::make(sheet, work, true)?;
    wide::run_net(work, inputs, state, out, made.counts, ticks as usize)
}

// The lean netlist of a sheet is run for so many ticks, for sixteen traces at once: bit k of each number of inputs, state and output belongs to
// trace k. Lent are the numbers of its input pins, in pin order, tick after tick, and one for each register by rising terminal, the bits that it
// shows at tick 0; written are the numbers of its output pins, and the bits that the registers would show next, so that a call with that state
// goes on where this one ended. Or the run is refused, and output and state stay. The working memory is left as by every call.
pub fn lanes(
    sheet: &[u8],
    inputs: &[u16],
    state: &mut [u16],
    out: &mut [u16],
    work: &mut [u16],
    ticks: u16,
) -> Result<usize, Refusal>
    ensures { lanes_called result out.new state.new work.new ≡ lanes_call sheet.now inputs.now state.old ticks out.old work.old }
{
    let r = lanes_sheet(sheet, inputs, state, out, work, ticks);
    translator::clear(work);
    r
}
