// The lines of the lean netlist that stands in the working memory by terminal, one group after the other. The bounds of the offsets keep
// sums from wrapping, and have nothing to do with the output, which may be shorter than the text.
ghost use Rattle.std.specs.Prelude.{◌≡◌, ◌+◌, ◌≤◌, ◌<◌, get_or};
ghost use Rattle.lean.specs.Table.{entry};
ghost use Rattle.memory.specs.Map.{terminal_of};
ghost use Rattle.netlist.specs.Said.{said_terminal};
ghost use Rattle.lean.specs.Layout.{lean_pins_at, LeanReady};
ghost use Rattle.lines.specs.Wrote.{WroteText};
ghost use Rattle.verilog.specs.InMemory.{element_line_at, wire_line_at};
ghost use Rattle.verilog.specs.Groups.{count_of, table_at, group_line_at, group_text};

use crate::line;
use lean::{KIND, LEAN, LEFT_OUT, PINS};
use netlist::{In, Out, Terminal};

// The groups of lines, as they stand in the module.
#[derive(Clone, Copy, Debug, PartialEq, Eq)]
pub enum Group {
    Ports,
    Elements,
    Wires,
    Pins,
}

// The lean netlist that stands in the working memory by terminal: the first terminal that no element takes, and the number of pins.
#[derive(Clone, Copy, Debug, PartialEq, Eq)]
pub struct LeanNet<'a> {
    pub work: &'a [u16],
    pub end: usize,
    pub pins: usize,
}

impl<'a> LeanNet<'a> {
    // The lines of the element whose output is x. As each function that follows, it answers the offset past what it wrote.
    fn put_element(self, x: usize, out: &mut [u8], at: usize) -> usize
        requires { LeanReady self.work.now self.end self.pins × ((x < self.end) × (at ≤ 4294967296)) }
        ensures { WroteText out.old at (element_line_at (entry self.entry.work.now x) x) out.new result }
    {
        let v = self.work[LEAN + x];
        if v < KIND {
            return at;
        }
        if v >= LEFT_OUT {
            return at;
        }
        let kind = v - KIND;
        line::put_element(out, at, kind, lean::first_of(kind, x))
    }

    // The line of the wire to input x. Alike to the writer's of `lean`, but that one writes bytes: the two share no more than the tests of the entry.
    fn put_wire(self, x: usize, out: &mut [u8], at: usize) -> usize
        requires { LeanReady self.work.now self.end self.pins × ((x < self.end) × (at ≤ 4294967296)) }
        ensures { WroteText out.old at (wire_line_at (entry self.entry.work.now x) x) out.new result }
    {
        let v = self.work[LEAN + x];
        if v == 0 {
            return at;
        }
        if v >= KIND {
            return at;
        }
        line::put_wire(out, at, Out(v - 1), In(x as u16))
    }

    // The pin at position x.
    fn pin_at(self, x: usize) -> Terminal
        requires { LeanReady self.work.now self.end self.pins × (x < self.pins) }
        ensures { said_terminal result ≡ terminal_of (get_or self.entry.work.now (lean_pins_at + x) 0) }
    {
        netlist::terminal_of(self.work[PINS + x])
    }

    // How many terminals or pins a group goes over.
    fn count(self, group: Group) -> usize
        ensures { result ≡ count_of group self.entry.end self.entry.pins }
    {
        match group {
            Group::Ports | Group::Pins => self.pins,
            Group::Elements | Group::Wires => self.end,
        }
    }

    // What a group has of terminal x, or of the pin at position x.
    fn put_line(self, group: Group, x: usize, out: &mut [u8], at: usize) -> usize
        requires { LeanReady self.work.now self.end self.pins × ((x < count_of group self.end self.pins) × (at ≤ 4294967296)) }
        ensures { WroteText out.old at (group_line_at group (get_or self.entry.work.now (table_at group + x) 0) x) out.new result }
    {
        match group {
            Group::Ports => line::put_port(out, at, x, self.pin_at(x)),
            Group::Elements => self.put_element(x, out, at),
            Group::Wires => self.put_wire(x, out, at),
            Group::Pins => line::put_pin(out, at, x, self.pin_at(x)),
        }
    }

    // The lines of a group, by rising terminal or position.
    pub fn put_group(self, group: Group, out: &mut [u8], from: usize) -> usize
        requires { LeanReady self.work.now self.end self.pins × (from ≤ 16777216) }
        ensures { WroteText out.old from (group_text group self.entry.work.now self.entry.end self.entry.pins) out.new result }
    {
        let n = self.count(group);
        let mut at = from;
        for x in 0..n {
            at = self.put_line(group, x, out, at);
        }
        at
    }
}
