// A flat layout of the gates, the registers and the pins, made once before the first tick: for each of them in order the places of the bits that it
// reads. The bits of the gates stand side by side, and so do those of the registers. What stands where is said in specs/Flat.
ghost use Rattle.std.specs.Prelude.{◌≡◌, ◌+◌, ◌≤◌, ◌<◌, length, get_or, set};
ghost use Rattle.memory.specs.Map.{memory_size};
ghost use Rattle.trace_steps.specs.Map.{order_at};
ghost use Rattle.trace_steps.specs.Steps.{Looks, Ordered, Registers};
ghost use Rattle.trace_steps.specs.Turns.{Looped};
ghost use Rattle.trace_steps.specs.Pins.{PinsLow};
ghost use Rattle.trace_flat.specs.FlatTicks.{Layable, FlatLaid};
ghost use Rattle.trace_flat.specs.Flat.{flat_most, gates_at, ins_at, zero_at, one_at, Stretched, Listed, place_one, place_next, second_for, third_for, lay_at, GatesLaid, SourcesLaid, PinsLaid, dark_one};

use trace_steps::table::{BITS, ORDER, PINS, REGISTERS};
use trace_steps::{table, ticks};

// So many gates, and so many registers, have room.
pub const FEW: usize = 1280;

// A netlist has at most so many pins.
pub const MOST_PINS: usize = 128;

pub const SOURCES: usize = REGISTERS + FEW;

pub const NEXT: usize = SOURCES + FEW;

pub const SHOWN: usize = NEXT + FEW;

pub const FIRST: usize = BITS + memory::TERMINALS;

pub const SECOND: usize = FIRST + FEW;

pub const THIRD: usize = SECOND + FEW;

pub const GATES: usize = THIRD + FEW;

pub const INS: usize = GATES + FEW;

pub const OUTS: usize = INS + MOST_PINS;

pub const ZERO: usize = OUTS + MOST_PINS;

pub const ONE: usize = ZERO + 1;

// Where each terminal's bits stand: in its own place among the bits ..
fn place(work: &mut [u16], end: usize)
    requires { (memory_size ≤ length work.old) × (end ≤ 8192) }
    ensures { Looped place_one end work.old work.new }
{
    for x in 0..end {
        work[BITS + x] = (BITS + x) as u16;
    }
}

// .. or side by side from `first` on, those of the terminals in a list. The list is `n` numbers of the same memory, from `list` on: a slice of it could
// not be lent beside the memory that is changed.
fn place_listed(work: &mut [u16], list: usize, n: usize, first: usize)
    requires { (Listed work.old list n) × (first + n ≤ memory_size) }
    ensures { Looped (place_next list first) n work.old work.new }
{
    for j in 0..n {
        let o = table::at(&work[..], list + j);
        work[BITS + o] = (first + j) as u16;
    }
}

// Which place a gate with this entry reads second. An and, an or and a point read their last input's.
fn second(entry: u16, b: u16) -> u16
    ensures { result ≡ second_for entry b }
{
    let other = table::pick(entry == table::INVERTER_ENTRY, ZERO as u16, b);
    table::pick(entry == table::XOR_ENTRY, ZERO as u16, other)
}

// Which place it reads third.
fn third(entry: u16, a: u16, b: u16) -> u16
    ensures { result ≡ third_for entry a b }
{
    let other = table::pick(entry == table::XOR_ENTRY, b, a);
    let two = table::pick(entry == table::OR_ENTRY, b, other);
    table::pick(entry == table::INVERTER_ENTRY, ONE as u16, two)
}

// The three places that the j-th gate of the order reads.
fn lay_gate(work: &mut [u16], j: usize)
    requires { (Looks work.old (get_or work.old (order_at + j) 0)) × (j < flat_most) }
    ensures { work.new ≡ lay_at work.old j (get_or work.old (order_at + j) 0) }
{
    let o = table::at(&work[..], ORDER + j);
    let entry = work[o];
    let x = table::first_of(&work[..], o);
    let a = table::fed(&work[..], x);
    let b = table::fed(&work[..], o - 1);
    work[FIRST + j] = a;
    work[SECOND + j] = second(entry, b);
    work[THIRD + j] = third(entry, a, b);
}

fn lay_gates(work: &mut [u16], settled: usize)
    requires { (Ordered work.old settled) × (settled ≤ flat_most) }
    ensures { GatesLaid work.old settled work.new }
{
    for j in 0..settled {
        lay_gate(work, j);
    }
}

// The place that the j-th register reads.
fn lay_registers(work: &mut [u16], regs: usize)
    requires { (Registers work.old regs) × (regs ≤ flat_most) }
    ensures { SourcesLaid work.old regs work.new }
{
    for j in 0..regs {
        let o = table::at(&work[..], REGISTERS + j);
        let y = table::fed(&work[..], o - 1);
        work[SOURCES + j] = y;
    }
}

// The places of the input pins, and those of the output pins.
fn lay_pins(work: &mut [u16], pins: usize)
    requires { PinsLow work.old pins }
    ensures { PinsLaid work.old pins work.new }
{
    let mut i: usize = 0;
    let mut o: usize = 0;
    for k in 0..pins {
        let code = table::at(&work[..], PINS + k);
        let y = work[BITS + code / 2];
        if code % 2 == 0 {
            work[INS + i] = y;
            i = i + 1;
        } else {
            work[OUTS + o] = y;
            o = o + 1;
        }
    }
}

// The gates' bits are 0.
fn darken(work: &mut [u16], settled: usize)
    requires { (memory_size ≤ length work.old) × (settled ≤ flat_most) }
    ensures { Stretched gates_at ins_at dark_one settled work.old work.new }
{
    for j in 0..settled {
        work[GATES + j] = 0;
    }
}

// A place that is always 0, and one that is 1 in each lane.
fn set_constants(work: &mut [u16])
    requires { memory_size ≤ length work.old }
    ensures { work.new ≡ set (set work.old zero_at 0) one_at 65535 }
{
    work[ZERO] = 0;
    work[ONE] = 65535;
}

// The layout, and every bit 0 but those of a part one.
pub fn lay(work: &mut [u16], end: usize, settled: usize, regs: usize, pins: usize)
    requires { Layable work.old end settled regs pins }
    ensures { FlatLaid work.old end settled regs pins work.new }
{
    place(work, memory::TERMINALS);
    place_listed(work, REGISTERS, regs, SHOWN);
    place_listed(work, ORDER, settled, GATES);
    lay_gates(work, settled);
    lay_registers(work, regs);
    lay_pins(work, pins);
    ticks::begin(work, end);
    darken(work, settled);
    set_constants(work);
}
