// The lean netlist that stands in the working memory by terminal, as bytes.
ghost use Rattle.std.specs.Prelude.{◌≡◌, ◌+◌, ◌*◌, ◌≤◌, ◌<◌, length, get_or, drop};
ghost use Rattle.std.proofs.lemmas.List.Edits.{sets};
ghost use Rattle.memory.specs.Map.{roots_at, makers_at};
ghost use Rattle.netlist.specs.Elements.{node_size};
ghost use Rattle.lean.specs.Table.{entry};
ghost use Rattle.lean.specs.Layout.{lean_pins_at, row_in, LeanReady};
ghost use Rattle.lean.specs.Rows.{record_bytes_at, wire_bytes_at, pin_bytes_at, records_in, WritesOn, entry_size, sizes_in};

use crate::pass;
use crate::pass::{KIND, LEAN, LEFT_OUT, PINS};
use memory::{MAKERS, POINT};
use netlist::{In, Out};

// Where the writer goes on: at an offset and a terminal, with the maker that the next output takes.
#[derive(Clone, Copy, Debug, PartialEq, Eq)]
struct Next {
    at: usize,
    x: usize,
    i: usize,
}

// The bytes that a terminal gives by its entry: of its wire, or of its element, whose node takes `own`.
fn size_of(v: u16, own: u16, plain: bool) -> u16
    requires { own ≡ node_size plain 1 }
    ensures { (result ≡ entry_size plain v) × (result ≤ 6) }
{
    if v < KIND {
        return if v == 0 { 0 } else { 5 };
    }
    if v >= LEFT_OUT {
        return 0;
    }
    if v == KIND + POINT { 3 + own } else { 4 + own }
}

// What writes the lean netlist that stands in the working memory by terminal: the first terminal that no element takes, the number of
// pins, and whether the records are of the plain kinds.
#[derive(Clone, Copy, Debug, PartialEq, Eq)]
pub struct Writer<'a> {
    pub work: &'a [u16],
    pub end: usize,
    pub pins: usize,
    pub plain: bool,
}

impl<'a> Writer<'a> {
    // The i-th maker; 0 past the memory's end.
    fn maker_at(self, i: usize) -> u16
        requires { i ≤ 8192 }
        ensures { result ≡ get_or self.entry.work.now (makers_at + i) 0 }
    {
        self.work.get(MAKERS + i).copied().unwrap_or(0)
    }

    // The record of the element whose output is x, and whose maker is the i-th. As each function that follows, it answers the offset past what it wrote.
    fn put_element(self, here: Next, out: &mut [u8]) -> usize
        requires { LeanReady self.work.now self.end self.pins × ((here.x < self.end) × ((here.i ≤ here.x) × (here.at + length (record_bytes_at self.plain (get_or self.work.now (makers_at + here.i) 0) (entry self.work.now here.x) here.x) ≤ length out.old))) }
        ensures { let w = self.entry.work.now in
            let bytes = record_bytes_at self.entry.plain (get_or w (makers_at + here.i) 0) (entry w here.x) here.x in
            (result ≡ here.at + length bytes) × (out.new ≡ sets out.old here.at bytes) }
    {
        let v = self.work[LEAN + here.x];
        if v < KIND {
            return here.at;
        }
        if v >= LEFT_OUT {
            return here.at;
        }
        let kind = v - KIND;
        let node = self.maker_at(here.i);
        netlist::put_element(
            out,
            here.at,
            kind,
            pass::first_of(kind, here.x),
            node,
            self.plain,
        )
    }

    // The record at terminal x. Behind an input, the output of a point that is left out is passed too. An output takes a maker, kept or not.
    fn put_at(self, here: Next, out: &mut [u8]) -> Next
        requires { LeanReady self.work.now self.end self.pins × ((here.x < self.end) × ((here.i ≤ here.x) × (here.at + length (record_bytes_at self.plain (get_or self.work.now (makers_at + here.i) 0) (entry self.work.now here.x) here.x) ≤ length out.old))) }
        ensures { let w = self.entry.work.now in
            let bytes = record_bytes_at self.entry.plain (get_or w (makers_at + here.i) 0) (entry w here.x) here.x in
            ((result.at ≡ here.at + length bytes) × (out.new ≡ sets out.old here.at bytes)) × WritesOn w self.entry.end here.x here.i result.x result.i }
    {
        if self.work[LEAN + here.x] < KIND {
            if self.work[LEAN + (here.x + 1)] == LEFT_OUT {
                return Next {
                    x: here.x + 2,
                    i: here.i + 1,
                    ..here
                };
            }
            return Next {
                x: here.x + 1,
                ..here
            };
        }
        let past = self.put_element(here, out);
        Next {
            at: past,
            x: here.x + 1,
            i: here.i + 1,
        }
    }

    // The records of all elements.
    pub fn put_elements(self, out: &mut [u8], from: usize) -> usize
        requires { LeanReady self.work.now self.end self.pins × (from + length (records_in self.plain self.work.now self.end 0 (drop makers_at self.work.now)) ≤ length out.old) }
        ensures { let w = self.entry.work.now in
            let bytes = records_in self.entry.plain w self.entry.end 0 (drop makers_at w) in
            (result ≡ from + length bytes) × (out.new ≡ sets out.old from bytes) }
    {
        let mut here = Next {
            at: from,
            x: 0,
            i: 0,
        };
        while here.x < self.end {
            here = self.put_at(here, out);
        }
        here.at
    }

    // The record of the wire to input x. It is like verilog's `put_wire`, which writes text: the two share only the tests of the entry.
    fn put_wire(self, x: usize, out: &mut [u8], at: usize) -> usize
        requires { LeanReady self.work.now self.end self.pins × ((x < self.end) × (at + length (wire_bytes_at (entry self.work.now x) x) ≤ length out.old)) }
        ensures { let w = self.entry.work.now in
            let bytes = wire_bytes_at (entry w x) x in
            (result ≡ at + length bytes) × (out.new ≡ sets out.old at bytes) }
    {
        let v = self.work[LEAN + x];
        if v == 0 {
            return at;
        }
        if v >= KIND {
            return at;
        }
        netlist::put_wire(out, at, Out(v - 1), In(x as u16))
    }

    // The records of all wires, by rising target.
    pub fn put_wires(self, out: &mut [u8], from: usize) -> usize
        requires { LeanReady self.work.now self.end self.pins × (from + length (row_in wire_bytes_at roots_at self.work.now self.end 0) ≤ length out.old) }
        ensures { let w = self.entry.work.now in
            let bytes = row_in wire_bytes_at roots_at w self.entry.end 0 in
            (result ≡ from + length bytes) × (out.new ≡ sets out.old from bytes) }
    {
        let mut at = from;
        let mut x: usize = 0;
        while x < self.end {
            at = self.put_wire(x, out, at);
            x = pass::behind(self.work, x);
        }
        at
    }

    // The records of all pins.
    pub fn put_pins(self, out: &mut [u8], from: usize) -> usize
        requires { LeanReady self.work.now self.end self.pins × (from + length (row_in pin_bytes_at lean_pins_at self.work.now self.pins 0) ≤ length out.old) }
        ensures { let w = self.entry.work.now in
            let bytes = row_in pin_bytes_at lean_pins_at w self.entry.pins 0 in
            (result ≡ from + length bytes) × (out.new ≡ sets out.old from bytes) }
    {
        let mut at = from;
        for x in 0..self.pins {
            at = netlist::put_pin(out, at, netlist::terminal_of(self.work[PINS + x]));
        }
        at
    }

    // The bytes of all elements and wires. They are few enough for 16 bits, so that the compiler takes several terminals at once.
    pub fn size(self) -> usize
        requires { LeanReady self.work.now self.end self.pins }
        ensures { (result ≡ sizes_in self.entry.plain self.entry.work.now self.entry.end 0) × (result ≤ 6 * self.entry.end) }
    {
        let own = netlist::node_size(1, self.plain) as u16;
        let mut sum: u16 = 0;
        for x in 0..self.end {
            sum = sum + size_of(self.work[LEAN + x], own, self.plain);
        }
        sum as usize
    }
}
