// Terminals, the records of a netlist as bytes, and the full netlist.
#![tactic(auto)]

ghost use Rattle.std.specs.Prelude.{◌≡◌, ◌∷◌, [], map, ◌+◌, ◌*◌, ◌≤◌, ◌<◌, length, false};
ghost use Rattle.std.proofs.lemmas.List.Edits.{sets};
ghost use Rattle.calculus.specs.Net.{two, number, point, part, wire_of, element_bytes, wire_bytes, pin_bytes};
ghost use Rattle.calculus.specs.Makers.{node_bytes, written};
ghost use Rattle.calculus.specs.Terms.{part_at};
ghost use Rattle.memory.specs.Map.{targets_at, elements_at, stack_at, makers_at, code, terminal_of, region, elements_from, wires_from, net_in, Ready};
ghost use Rattle.netlist.specs.Said.{said_terminal};
ghost use Rattle.netlist.specs.Elements.{output_of, after, element_size, node_size, element_records};
ghost use Rattle.netlist.specs.Fitting.{ElementsFit, WiresFit, PinsFit, Writable};

// An input terminal, and an output terminal, by its number.
#[derive(Clone, Copy, Debug, PartialEq, Eq)]
pub struct In(pub u16);

#[derive(Clone, Copy, Debug, PartialEq, Eq)]
pub struct Out(pub u16);

// A terminal of an interface.
#[derive(Clone, Copy, Debug, PartialEq, Eq)]
pub enum Terminal {
    Input(In),
    Output(Out),
}

// The terminal of a code: 2 i is input i, 2 o + 1 output o.
pub fn terminal_of(coded: u16) -> Terminal
    ensures { said_terminal result ≡ terminal_of coded }
{
    let n = coded / 2;
    if coded % 2 == 0 {
        Terminal::Input(In(n))
    } else {
        Terminal::Output(Out(n))
    }
}

pub fn code_of(t: Terminal) -> u16
    requires { number (said_terminal t) < 32768 }
    ensures { result ≡ code (said_terminal t) }
{
    match t {
        Terminal::Input(i) => 2 * i.0,
        Terminal::Output(o) => 2 * o.0 + 1,
    }
}

pub fn number_of(t: Terminal) -> u16
    ensures { result ≡ number (said_terminal t) }
{
    match t {
        Terminal::Input(i) => i.0,
        Terminal::Output(o) => o.0,
    }
}

// A number of two bytes, low byte first. As each function here, it answers the offset past what it wrote.
pub fn put_two(out: &mut [u8], at: usize, n: u16) -> usize
    requires { at + 2 ≤ length out.old }
    ensures { (result ≡ at + 2) × (out.new ≡ sets out.old at (two n)) }
{
    let [low, high] = n.to_le_bytes();
    out[at] = low;
    out[at + 1] = high;
    at + 2
}

// A point: 21, its input.
pub fn put_point(out: &mut [u8], at: usize, input: In) -> usize
    requires { at + 3 ≤ length out.old }
    ensures { (result ≡ at + 3) × (out.new ≡ sets out.old at (element_bytes (point input.0 ∷ []))) }
{
    out[at] = 0x21;
    put_two(out, at + 1, input.0)
}

// The `kind` of a part, here and below where it is one byte, is its number: `part kind first` and `part_at` of the definitions take any byte for it.
//
// A part: 22, its number, its first terminal.
pub fn put_part(out: &mut [u8], at: usize, kind: u8, first: u16) -> usize
    requires { at + 4 ≤ length out.old }
    ensures { (result ≡ at + 4) × (out.new ≡ sets out.old at (element_bytes (part kind first ∷ []))) }
{
    out[at] = 0x22;
    out[at + 1] = kind;
    put_two(out, at + 2, first)
}

// A point with the node that made it: 25, its input, the node.
pub fn put_node_point(out: &mut [u8], at: usize, input: In, node: u16) -> usize
    requires { at + 5 ≤ length out.old }
    ensures { (result ≡ at + 5) × (out.new ≡ sets out.old at (node_bytes (point input.0) node)) }
{
    out[at] = 0x25;
    let mid = put_two(out, at + 1, input.0);
    put_two(out, mid, node)
}

// A part with the node that made it: 26, its number, its first terminal, the node.
pub fn put_node_part(out: &mut [u8], at: usize, kind: u8, first: u16, node: u16) -> usize
    requires { at + 6 ≤ length out.old }
    ensures { (result ≡ at + 6) × (out.new ≡ sets out.old at (node_bytes (part kind first) node)) }
{
    out[at] = 0x26;
    out[at + 1] = kind;
    let mid = put_two(out, at + 2, first);
    put_two(out, mid, node)
}

// A wire: 23, the output that it runs from, the input that it runs to.
pub fn put_wire(out: &mut [u8], at: usize, from: Out, to: In) -> usize
    requires { at + 5 ≤ length out.old }
    ensures { (result ≡ at + 5) × (out.new ≡ sets out.old at (wire_bytes (wire_of from.0 to.0 ∷ []))) }
{
    out[at] = 0x23;
    let mid = put_two(out, at + 1, from.0);
    put_two(out, mid, to.0)
}

// A pin: 24, its terminal.
pub fn put_pin(out: &mut [u8], at: usize, t: Terminal) -> usize
    requires { at + 3 ≤ length out.old }
    ensures { (result ≡ at + 3) × (out.new ≡ sets out.old at (pin_bytes (said_terminal t ∷ []))) }
{
    let n = number_of(t);
    out[at] = 0x24;
    put_two(out, at + 1, n)
}

// A part's number of inputs; none where there is no such part.
pub fn inputs_of(kind: u8) -> u16
    ensures { result ≡ (part_at kind).inputs }
{
    let part = parts::part_of(kind as u16);
    part.inputs as u16
}

// The `kind` of an element is the number that the working memory holds: `output_of`, `after` and `elements_from` of the definitions take any such number,
// also one that is no kind's, and `lean::roots` promises its result for these too. So it is no enum, from here on.
//
// The output of an element of a kind that starts at n.
pub fn output_of(kind: u16, n: u16) -> Out
    requires { n ≤ 8192 }
    ensures { result.0 ≡ output_of kind n }
{
    if kind == memory::POINT {
        return Out(n + 1);
    }
    let part = parts::part_of(kind);
    Out(n + part.inputs as u16)
}

// The next free terminal behind it.
pub fn next_after(kind: u16, n: u16) -> u16
    requires { n ≤ 8192 }
    ensures { result ≡ after kind n }
{
    if kind == memory::POINT {
        return n + 2;
    }
    let part = parts::part_of(kind);
    n + part.inputs as u16 + part.outputs as u16
}

// The bytes of the record of an element of a kind.
fn size_of(kind: u16) -> usize
    ensures { result ≡ element_size kind }
{
    if kind == memory::POINT { 3 } else { 4 }
}

// The bytes of so many node numbers, where they are wished.
pub fn node_size(elements: usize, plain: bool) -> usize
    requires { elements ≤ 5120 }
    ensures { result ≡ node_size plain elements }
{
    if plain { 0 } else { 2 * elements }
}

// The length of the full netlist that stands in the working memory, with the makers of its elements where they are wished.
pub fn full_length(work: &[u16], elements: usize, wires: usize, pins: usize, plain: bool) -> usize
    requires { Ready work.now elements wires pins }
    ensures { result ≡ length (written plain (net_in work.now elements wires pins) (region work.now makers_at elements)) }
{
    let mut sum = 5 * wires + 3 * pins;
    for i in 0..elements {
        sum += size_of(work[memory::ELEMENTS + i]);
    }
    sum + node_size(elements, plain)
}

// The output, the offset, the terminal and the node go one by one through `put_plain`, `put_node`, `put_element` and the functions of one record: an
// element's kind, terminal and node are known only where it is written, so a struct of them would be made for a single call.
//
// The plain record of an element of a kind that starts at terminal n.
fn put_plain(out: &mut [u8], at: usize, kind: u16, n: u16) -> usize
    requires { (kind < 8) × (at + element_size kind ≤ length out.old) }
    ensures { (result ≡ at + element_size kind)
        × (out.new ≡ sets out.old at (element_bytes (elements_from (kind ∷ []) n))) }
{
    if kind == memory::POINT {
        put_point(out, at, In(n))
    } else {
        put_part(out, at, kind as u8, n)
    }
}

// Its record with the node that made it.
fn put_node(out: &mut [u8], at: usize, kind: u16, n: u16, node: u16) -> usize
    requires { (kind < 8) × (at + element_size kind + 2 ≤ length out.old) }
    ensures { (result ≡ at + element_size kind + 2)
        × (out.new ≡ sets out.old at (element_records false (elements_from (kind ∷ []) n) (node ∷ []))) }
{
    if kind == memory::POINT {
        put_node_point(out, at, In(n), node)
    } else {
        put_node_part(out, at, kind as u8, n, node)
    }
}

// The one that is wished.
pub fn put_element(out: &mut [u8], at: usize, kind: u16, n: u16, node: u16, plain: bool) -> usize
    requires { (kind < 8) × (at + element_size kind + node_size plain 1 ≤ length out.old) }
    ensures { (result ≡ at + element_size kind + node_size plain 1)
        × (out.new ≡ sets out.old at (element_records plain (elements_from (kind ∷ []) n) (node ∷ []))) }
{
    if plain {
        put_plain(out, at, kind, n)
    } else {
        put_node(out, at, kind, n, node)
    }
}

// The full netlist that stands in the working memory: the numbers of its elements, wires and pins, and whether the records are of the plain kinds.
#[derive(Clone, Copy, Debug, PartialEq, Eq)]
struct Full<'a> {
    work: &'a [u16],
    elements: usize,
    wires: usize,
    pins: usize,
    plain: bool,
}

impl<'a> Full<'a> {
    // The records of all elements, from an offset on.
    fn put_elements(self, out: &mut [u8], from: usize) -> usize
        requires { ElementsFit self.plain self.work.now self.elements (length out.old) from }
        ensures { (result ≡ from + length (element_records self.entry.plain (elements_from (region self.entry.work.now elements_at self.entry.elements) 0) (region self.entry.work.now makers_at self.entry.elements)))
            × (out.new ≡ sets out.old from (element_records self.entry.plain (elements_from (region self.entry.work.now elements_at self.entry.elements) 0) (region self.entry.work.now makers_at self.entry.elements))) }
    {
        let mut at = from;
        let mut n: u16 = 0;
        for i in 0..self.elements {
            let kind = self.work[memory::ELEMENTS + i];
            let node = self.work[memory::MAKERS + i];
            at = put_element(out, at, kind, n, node, self.plain);
            n = next_after(kind, n);
        }
        at
    }

    // The same, with the wish known: no loop then tests it at each element.
    fn put_wished(self, out: &mut [u8], from: usize) -> usize
        requires { ElementsFit self.plain self.work.now self.elements (length out.old) from }
        ensures { (result ≡ from + length (element_records self.entry.plain (elements_from (region self.entry.work.now elements_at self.entry.elements) 0) (region self.entry.work.now makers_at self.entry.elements)))
            × (out.new ≡ sets out.old from (element_records self.entry.plain (elements_from (region self.entry.work.now elements_at self.entry.elements) 0) (region self.entry.work.now makers_at self.entry.elements))) }
    {
        if self.plain {
            Full {
                plain: true,
                ..self
            }
            .put_elements(out, from)
        } else {
            Full {
                plain: false,
                ..self
            }
            .put_elements(out, from)
        }
    }

    // The records of all wires, from an offset on.
    fn put_wires(self, out: &mut [u8], from: usize) -> usize
        requires { WiresFit self.work.now self.wires (length out.old) from }
        ensures { (result ≡ from + 5 * self.entry.wires)
            × (out.new ≡ sets out.old from (wire_bytes (wires_from self.entry.work.now (region self.entry.work.now targets_at self.entry.wires)))) }
    {
        let mut at = from;
        for i in 0..self.wires {
            let to = self.work[memory::TARGETS + i];
            let driver = self.work[memory::DRIVERS + to as usize];
            at = put_wire(out, at, Out(driver), In(to));
        }
        at
    }

    // The records of all pins, from an offset on.
    fn put_pins(self, out: &mut [u8], from: usize) -> usize
        requires { PinsFit self.work.now self.pins (length out.old) from }
        ensures { (result ≡ from + 3 * self.entry.pins)
            × (out.new ≡ sets out.old from (pin_bytes (map terminal_of (region self.entry.work.now stack_at self.entry.pins)))) }
    {
        let mut at = from;
        for i in 0..self.pins {
            at = put_pin(out, at, terminal_of(self.work[memory::STACK + i]));
        }
        at
    }
}

// The full netlist that stands in the working memory, written from the start of the output; its length.
pub fn write_full(
    work: &[u16],
    out: &mut [u8],
    elements: usize,
    wires: usize,
    pins: usize,
    plain: bool,
) -> usize
    requires { Writable plain work.now elements wires pins (length out.old) }
    ensures { (result ≡ length (written plain (net_in work.now elements wires pins) (region work.now makers_at elements)))
        × (out.new ≡ sets out.old 0 (written plain (net_in work.now elements wires pins) (region work.now makers_at elements))) }
{
    let full = Full {
        work,
        elements,
        wires,
        pins,
        plain,
    };
    let first = full.put_wished(out, 0);
    let second = full.put_wires(out, first);
    full.put_pins(out, second)
}
