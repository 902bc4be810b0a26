// The lines of the module, by their forms.
ghost use Rattle.std.specs.Prelude.{◌≤◌, ◌<◌};
ghost use Rattle.export_calculus.specs.Verilog.{element_forms, port_forms, assign_forms, line_text, kind_line, line_of_wire, line_of_pin, line_of_port};
ghost use Rattle.calculus.specs.Net.{wire_of};
ghost use Rattle.netlist.specs.Said.{said_terminal};
ghost use Rattle.lines.specs.Wrote.{WroteText};

use crate::form;
use netlist::{In, Out, Terminal};

// An element of a kind whose first terminal is given: its nets, and what drives its output. A kind that is no part's number is a point's.
// The kind is the number that the working memory holds, and that `kind_line` of the definitions takes for the form's place.
pub fn put_element(out: &mut [u8], at: usize, kind: u16, first: u16) -> usize
    requires { (kind < 8) × (first ≤ 8192) × (at ≤ 4294967296) }
    ensures { WroteText out.old at (line_text element_forms (kind_line kind first)) out.new result }
{
    let n = first as usize;
    let y = n + 1;
    let z = n + 2;
    match kind {
        parts::ZERO => form::put_form(out, at, b"wire tX;\nassign tX = 1'b0;\n", n, y, z),
        parts::REG => form::put_form(
            out,
            at,
            b"wire tX;\nreg tY;\nalways @(posedge clock) tY <= tX;\n",
            n,
            y,
            z,
        ),
        parts::AND => form::put_form(out, at, b"wire tX, tY, tZ;\nand (tZ, tX, tY);\n", n, y, z),
        parts::OR => form::put_form(out, at, b"wire tX, tY, tZ;\nor (tZ, tX, tY);\n", n, y, z),
        parts::XOR => form::put_form(out, at, b"wire tX, tY, tZ;\nxor (tZ, tX, tY);\n", n, y, z),
        parts::INV => form::put_form(out, at, b"wire tX, tY;\nnot (tY, tX);\n", n, y, z),
        parts::ONE => form::put_form(out, at, b"wire tX;\nassign tX = 1'b1;\n", n, y, z),
        _ => form::put_form(out, at, b"wire tX, tY;\nassign tY = tX;\n", n, y, z),
    }
}

// A wire.
pub fn put_wire(out: &mut [u8], at: usize, from: Out, to: In) -> usize
    requires { at ≤ 4294967296 }
    ensures { WroteText out.old at (line_text assign_forms (line_of_wire (wire_of from.0 to.0))) out.new result }
{
    form::put_form(
        out,
        at,
        b"assign tX = tY;\n",
        to.0 as usize,
        from.0 as usize,
        0,
    )
}

// The pin at position k.
pub fn put_pin(out: &mut [u8], at: usize, k: usize, t: Terminal) -> usize
    requires { at ≤ 4294967296 }
    ensures { WroteText out.old at (line_text assign_forms (line_of_pin k (said_terminal t))) out.new result }
{
    match t {
        Terminal::Input(i) => form::put_form(out, at, b"assign tX = pY;\n", i.0 as usize, k, 0),
        Terminal::Output(o) => form::put_form(out, at, b"assign pY = tX;\n", o.0 as usize, k, 0),
    }
}

// Its port.
pub fn put_port(out: &mut [u8], at: usize, k: usize, t: Terminal) -> usize
    requires { at ≤ 4294967296 }
    ensures { WroteText out.old at (line_text port_forms (line_of_port k (said_terminal t))) out.new result }
{
    match t {
        Terminal::Input(_) => form::put_form(out, at, b",\n  input pX", k, 0, 0),
        Terminal::Output(_) => form::put_form(out, at, b",\n  output pX", k, 0, 0),
    }
}
