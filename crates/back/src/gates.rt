// What the bytes of a netlist of parts say: its parts, and what drives their inputs. There are few, so each is looked for where it is asked,
// by the reader from record to record.
ghost use Rattle.std.specs.Prelude.{◌≡◌, ◌*◌, ◌≤◌, ◌<◌, unwrap_or, IfSome};
ghost use Rattle.calculus.specs.Lean.{driver as driverOf};
ghost use Rattle.back_calculus.specs.Back.{part_before, sources, undrivens};
ghost use Rattle.back.specs.Gates.{net_here, AcceptedNet, OfParts, PartHere, WiresHere, parts_or25, CountedNet};
ghost use Rattle.back.specs.Said.{said_parts, SaidGate};

use answers::{Reason, Refusal};
use net_reader::{Record, Step};

// How many parts a netlist without points has, and the offset after them.
#[derive(Clone, Copy, Debug, PartialEq, Eq)]
pub struct Parts {
    pub count: usize,
    pub wires: usize,
}

// A part and its first terminal, and where the reader stands next.
#[derive(Clone, Copy, Debug, PartialEq, Eq)]
pub struct Gate {
    pub part: u8,
    pub first: u16,
    pub past: usize,
}

// The undriven inputs, and all inputs.
#[derive(Clone, Copy, Debug, PartialEq, Eq)]
pub struct Counts {
    pub undriven: usize,
    pub inputs: usize,
}

// The parts of a netlist; or refusal 25 at the first point.
pub fn count_parts(net: &[u8]) -> Result<Parts, Refusal>
    requires { AcceptedNet net.now }
    ensures { said_parts result ≡ parts_or25 (net_here net.now).elements }
{
    let mut count: usize = 0;
    let mut at: usize = 0;
    while let Some(step) = net_reader::read(net, at)? {
        match step.found {
            Record::Part(_, _) => count += 1,
            Record::Point(_) => return Err(Reason::PointBack.at(at)),
            Record::Wire(_, _) | Record::Pin(_) => break,
        }
        at = step.past;
    }
    Ok(Parts { count, wires: at })
}

// The part at an offset.
pub fn gate_at(net: &[u8], at: usize) -> Gate
    requires { PartHere net.now at }
    ensures { SaidGate result net.now at }
{
    let Ok(
        Some(
            Step {
                found: Record::Part(part, first),
                past,
            },
        ),
    ) = net_reader::read(net, at)
    else {
        unreachable!()
    };
    Gate { part, first, past }
}

// The output that drives an input; none if no wire does. The wires begin at an offset.
pub fn driver(net: &[u8], wires: usize, i: usize) -> Option<u16>
    requires { WiresHere net.now wires }
    ensures driver { unwrap_or result 65535 ≡ driverOf (net_here net.now).wires i 65535 }
    ensures low { IfSome result (λ d. d < 65535) }
{
    let mut at = wires;
    while let Ok(
        Some(
            Step {
                found: Record::Wire(from, to),
                past,
            },
        ),
    ) = net_reader::read(net, at)
    {
        if to as usize == i {
            return Some(from);
        }
        at = past;
    }
    None
}

// How many parts stand before the one with an output.
pub fn part_before(net: &[u8], parts: usize, o: usize) -> usize
    requires { OfParts net.now parts }
    ensures { result ≡ part_before (net_here net.now).elements o }
{
    let mut at: usize = 0;
    for r in 0..parts {
        let g = gate_at(net, at);
        if g.first as usize + netlist::inputs_of(g.part) as usize == o {
            return r;
        }
        at = g.past;
    }
    parts
}

// 1 where an input is undriven, else 0.
fn open_at(net: &[u8], wires: usize, i: usize) -> usize
    requires { WiresHere net.now wires }
    ensures { result ≡ undrivens (sources (net_here net.now) 1 i 0) }
{
    usize::from(driver(net, wires, i).is_none())
}

// The undriven ones of at most two inputs.
fn open_of(net: &[u8], wires: usize, first: usize, inputs: usize) -> usize
    requires { WiresHere net.now wires × (first < 65536) × (inputs ≤ 2) }
    ensures { result ≡ undrivens (sources (net_here net.now) inputs first 0) }
{
    if inputs == 0 {
        return 0;
    }
    let one = open_at(net, wires, first);
    if inputs == 1 {
        return one;
    }
    one + open_at(net, wires, first + 1)
}

// The undriven inputs of all parts, and all inputs.
pub fn count_inputs(net: &[u8], parts: Parts) -> Counts
    requires { OfParts net.now parts.count × (parts.count ≤ 16) × (parts.wires ≡ 4 * parts.count) }
    ensures { CountedNet net.now result.undriven result.inputs }
{
    let mut undriven: usize = 0;
    let mut inputs: usize = 0;
    let mut at: usize = 0;
    for _ in 0..parts.count {
        let g = gate_at(net, at);
        let n = netlist::inputs_of(g.part) as usize;
        undriven += open_of(net, parts.wires, g.first as usize, n);
        inputs += n;
        at = g.past;
    }
    Counts { undriven, inputs }
}
