// From a netlist back to a sheet (document 02, L11).
#![tactic(auto)]

mod gates;
mod write;

ghost use Rattle.std.specs.Prelude.{◌≡◌, ◌*◌, length};
ghost use Rattle.back_calculus.specs.Back.{back_sheet};
ghost use Rattle.back_calculus.specs.Returned.{back_call};
ghost use Rattle.back.specs.Gates.{net_here, AcceptedNet, OfParts, Limited, CountedNet};
ghost use Rattle.translator.specs.Said.{in_room, AnswerSays, called};
ghost use Rattle.back.specs.Answered.{limit_answer, net_answer};

use answers::{Reason, Refusal};
use gates::{Counts, Parts};
use write::Layout;

// 17 where the output is shorter than the sheet; else the sheet is written.
fn fitted(net: &[u8], out: &mut [u8], parts: Parts, counts: Counts) -> Result<usize, Refusal>
    requires { Limited net.now parts.count counts.undriven × CountedNet net.now counts.undriven counts.inputs × (parts.wires ≡ 4 * parts.count) }
    ensures { AnswerSays result out.old out.new (in_room (back_sheet (net_here net.now)) (length out.old)) }
{
    let n = write::length(parts.count, counts.undriven, counts.inputs);
    if out.len() < n {
        return Err(Reason::ShortOutput.at(n));
    }
    let undriven = counts.undriven;
    let layout = Layout {
        net,
        parts,
        undriven,
    };
    write::sheet(out, layout);
    Ok(n)
}

// 26 where there are too few or too many parts, or too many undriven inputs.
fn limited(net: &[u8], out: &mut [u8], parts: Parts) -> Result<usize, Refusal>
    requires { OfParts net.now parts.count × (parts.wires ≡ 4 * parts.count) }
    ensures { AnswerSays result out.old out.new (limit_answer (net_here net.now) (length out.old)) }
{
    if parts.count == 0 {
        return Err(Reason::WrongPartCount.at(0));
    }
    if 16 < parts.count {
        return Err(Reason::WrongPartCount.at(0));
    }
    let counts = gates::count_inputs(net, parts);
    if 24 < counts.undriven {
        return Err(Reason::WrongPartCount.at(0));
    }
    fitted(net, out, parts, counts)
}

// Of a netlist that has been checked: 25 for a point, then 26, then 17.
fn returned(net: &[u8], out: &mut [u8]) -> Result<usize, Refusal>
    requires { AcceptedNet net.now }
    ensures { AnswerSays result out.old out.new (net_answer (net_here net.now) (length out.old)) }
{
    let parts = gates::count_parts(net)?;
    limited(net, out, parts)
}

// The sheet of a netlist is written to the start of the output; or the netlist is refused, and the output stays. The check leaves the
// working memory as every call does, and nothing after it looks there.
pub fn back(net: &[u8], out: &mut [u8], work: &mut [u16], lean: bool) -> Result<usize, Refusal>
    ensures { called result out.new work.new ≡ back_call lean net.now out.old work.old }
{
    foreign::check(net, work, lean)?;
    returned(net, out)
}
