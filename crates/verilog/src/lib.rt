// The call that writes the lean netlist of a sheet as a module of Verilog.
#![tactic(auto)]

mod form;
mod line;
mod walk;

ghost use Rattle.std.specs.Prelude.{◌≡◌, length, ◌≤◌};
ghost use Rattle.calculus.specs.NetRead.{Known};
ghost use Rattle.calculus.specs.Record.{All};
ghost use Rattle.lean.specs.Layout.{lean_in, LeanReady};
ghost use Rattle.export_calculus.specs.Verilog.{module_text, exported, export, verilog_call};
ghost use Rattle.memory.specs.Map.{net_in, Ready};
ghost use Rattle.lines.specs.Wrote.{WroteText};
ghost use Rattle.verilog.specs.InMemory.{lean_exported};
ghost use Rattle.verilog.specs.Groups.{opening_text, body_text};
ghost use Rattle.translator.specs.Made.{Keeps};
ghost use Rattle.translator.specs.Said.{AnswerSays, called};

use answers::{Reason, Refusal};
use walk::{Group, LeanNet};
use wiring::Counts;

// What stands before the elements. As each function that follows, it answers the offset past what it wrote.
fn put_opening(net: LeanNet, out: &mut [u8]) -> usize
    requires { LeanReady net.work.now net.end net.pins }
    ensures { WroteText out.old 0 (opening_text net.entry.work.now net.entry.end net.entry.pins) out.new result }
{
    let ports = form::put_form(out, 0, b"module circuit (\n  input clock", 0, 0, 0);
    let closing = net.put_group(Group::Ports, out, ports);
    form::put_form(out, closing, b"\n);\n", 0, 0, 0)
}

// Elements, wires and pins.
fn put_body(net: LeanNet, out: &mut [u8], first: usize) -> usize
    requires { LeanReady net.work.now net.end net.pins × (first ≤ 4194304) }
    ensures { WroteText out.old first (body_text net.entry.work.now net.entry.end net.entry.pins) out.new result }
{
    let second = net.put_group(Group::Elements, out, first);
    let third = net.put_group(Group::Wires, out, second);
    net.put_group(Group::Pins, out, third)
}

// The module's text, stored as far as the output reaches, and its length. So an output of any length tells the length, and one that is
// long enough has the whole text.
fn put_module(net: LeanNet, out: &mut [u8]) -> usize
    requires { LeanReady net.work.now net.end net.pins }
    ensures { WroteText out.old 0 (module_text (lean_in net.entry.work.now net.entry.end net.entry.pins)) out.new result }
{
    let first = put_opening(net, out);
    let last = put_body(net, out, first);
    form::put_form(out, last, b"endmodule\n", 0, 0, 0)
}

// Of the lean netlist that stands in the working memory: 18 where a ring point is kept, then 17 with the length needed where the output is
// shorter, or the module at the start of the output. The first pass only tells the length.
fn export_lean(net: LeanNet, out: &mut [u8]) -> Result<usize, Refusal>
    requires { LeanReady net.work.now net.end net.pins }
    ensures { AnswerSays result out.old out.new (lean_exported (lean_in net.entry.work.now net.entry.end net.entry.pins) (length out.old)) }
{
    if let Some(place) = card::rings::lowest(net.work, net.end, net.pins) {
        return Err(Reason::VerilogRing.at(place));
    }
    let mut none = [0u8; 1];
    let n = put_module(net, &mut none);
    if out.len() < n {
        return Err(Reason::ShortOutput.at(n));
    }
    Ok(put_module(net, out))
}

// .. still to be made of the full one.
fn export_net(work: &mut [u16], out: &mut [u8], counts: Counts) -> Result<usize, Refusal>
    requires { (Ready work.old counts.elements counts.wires counts.pins) × (All Known (net_in work.old counts.elements counts.wires counts.pins).elements) }
    ensures { (AnswerSays result out.old out.new (exported (net_in work.old counts.elements counts.wires counts.pins) (length out.old)))
        × (Keeps work.old work.new) }
{
    let end = lean::make_lean(work, counts.elements, counts.wires, counts.pins);
    let net = LeanNet {
        work: &work[..],
        end,
        pins: counts.pins,
    };
    export_lean(net, out)
}

// The netlist is made and exported. The working memory is not yet cleared.
fn export_sheet(sheet: &[u8], out: &mut [u8], work: &mut [u16]) -> Result<usize, Refusal>
    ensures { (AnswerSays result out.old out.new (export (length work.old) sheet.now (length out.old)))
        × (Keeps work.old work.new) }
{
    let made = translator::make(sheet, work, true)?;
    export_net(work, out, made.counts)
}

// The lean netlist of a sheet is written to the start of the output as a module of Verilog; or the sheet is refused, and the output stays.
// The working memory is left as by every call.
pub fn verilog(sheet: &[u8], out: &mut [u8], work: &mut [u16]) -> Result<usize, Refusal>
    ensures { called result out.new work.new ≡ verilog_call sheet.now out.old work.old }
{
    let r = export_sheet(sheet, out, work);
    translator::clear(work);
    r
}
