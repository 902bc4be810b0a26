// The run, tick after tick, over the order. By terminal a number of 16 bits, one for each lane; a run of one trace looks at lane 0 alone.
ghost use Rattle.std.specs.Prelude.{◌≡◌, ◌+◌, ◌-◌, ◌≤◌, ◌<◌, length};
ghost use Rattle.memory.specs.Map.{memory_size};
ghost use Rattle.lean.specs.Layout.{kinds_from};
ghost use Rattle.trace_steps.specs.Steps.{Looks, Ordered, Register, Registers, hold_at, turn_at, clock_at, wake_one, clock_one};
ghost use Rattle.trace_steps.specs.Words.{gate_word, word_step, word_pass, word_begin, lane_zero};
ghost use Rattle.trace_steps.specs.Turns.{Looped};
ghost use Rattle.trace_steps.specs.Pins.{in_pin_count, out_pin_count, Listable, RegistersListed};
ghost use Rattle.trace_steps.specs.Ticks.{sizes, Runs, Ticked, TraceFits, Ran};

use crate::table::{BITS, ORDER, REGISTERS};
use crate::{pins, table};

// How many outputs stand in the order, and how many registers and pins there are.
#[derive(Clone, Copy, Debug, PartialEq, Eq)]
pub struct Counts {
    pub settled: usize,
    pub regs: usize,
    pub pins: usize,
}

// Every bit is 0, but those of a part one.
pub fn begin(work: &mut [u16], end: usize)
    requires { (memory_size ≤ length work.old) × (end ≤ 8192) }
    ensures { Looped word_begin end work.old work.new }
{
    for x in 0..end {
        work[BITS + x] = table::all(work[x] == table::ONE_ENTRY);
    }
}

// The registers' start bits.
pub fn wake(work: &mut [u16], starts: &[u8], regs: usize)
    requires { (Registers work.old regs) × (regs ≤ length starts.now) }
    ensures { Looped (wake_one starts.now) regs work.old work.new }
{
    for j in 0..regs {
        let o = table::at(&work[..], REGISTERS + j);
        work[BITS + o] = starts[j] as u16;
    }
}

// The output, bit by bit, of the gate or point with this entry; a point and an inverter have their one input twice. Without a branch: which kind
// comes next is hard to foretell.
fn value(entry: u16, a: u16, b: u16) -> u16
    requires { kinds_from ≤ entry }
    ensures { result ≡ gate_word (entry - kinds_from) a b }
{
    let other = table::pick(entry == table::INVERTER_ENTRY, a ^ 65535, a & b);
    let odd = table::pick(entry == table::XOR_ENTRY, a ^ b, other);
    table::pick(entry == table::OR_ENTRY, a | b, odd)
}

// Output o gets its bits.
fn step(work: &mut [u16], o: usize)
    requires { Looks work.old o }
    ensures { work.new ≡ word_step work.old o }
{
    let entry = work[o];
    let x = table::first_of(&work[..], o);
    let a = table::fed(&work[..], x);
    let b = table::fed(&work[..], o - 1);
    work[BITS + o] = value(entry, a, b);
}

pub fn pass(work: &mut [u16], settled: usize)
    requires { Ordered work.old settled }
    ensures { Looped word_pass settled work.old work.new }
{
    for j in 0..settled {
        let o = table::at(&work[..], ORDER + j);
        step(work, o);
    }
}

// The input terminal of the register with output o gets its bit.
fn hold_one(work: &mut [u16], o: usize)
    requires { (memory_size ≤ length work.old) × Register work.old o }
    ensures { work.new ≡ hold_at work.old o }
{
    let y = table::at(&work[..], o - 1);
    work[BITS + (o - 1)] = work[BITS + y];
}

// Its output gets that of its input terminal.
fn turn_one(work: &mut [u16], o: usize)
    requires { (memory_size ≤ length work.old) × Register work.old o }
    ensures { work.new ≡ turn_at work.old o }
{
    work[BITS + o] = work[BITS + (o - 1)];
}

// One of the two.
fn clock_one(work: &mut [u16], o: usize, turning: bool)
    requires { (memory_size ≤ length work.old) × Register work.old o }
    ensures { work.new ≡ clock_at turning work.old o }
{
    if turning {
        turn_one(work, o)
    } else {
        hold_one(work, o)
    }
}

// Each register's input terminal gets its bit; or, turning, its output gets that of its input. One walk for both, by a flag: as two functions the loop and
// its proof would be there twice.
pub fn clock(work: &mut [u16], regs: usize, turning: bool)
    requires { Registers work.old regs }
    ensures { Looped (clock_one turning) regs work.old work.new }
{
    for j in 0..regs {
        let o = table::at(&work[..], REGISTERS + j);
        clock_one(work, o, turning);
    }
}

// One tick: its input bits from byte `from` on, its output bits to byte `to` on.
fn tick(work: &mut [u16], inputs: &[u8], out: &mut [u8], counts: Counts, from: usize, to: usize)
    requires { (Runs work.old counts.settled counts.regs counts.pins) × ((from + in_pin_count work.old counts.pins ≤ length inputs.now) × (to + out_pin_count work.old counts.pins ≤ length out.old)) }
    ensures { Ticked lane_zero (sizes counts.settled counts.regs counts.pins) inputs.now from to work.old out.old work.new out.new }
{
    let read = pins::load(work, inputs, counts.pins, from);
    pass(work, counts.settled);
    let written = pins::store(&work[..], out, counts.pins, to);
    clock(work, counts.regs, false);
    clock(work, counts.regs, true);
}

// So many ticks, each with so many input and output bits.
pub fn run(
    work: &mut [u16],
    inputs: &[u8],
    out: &mut [u8],
    counts: Counts,
    reads: usize,
    writes: usize,
    ticks: usize,
)
    requires { (Runs work.old counts.settled counts.regs counts.pins) × (TraceFits work.old (length inputs.now) (length out.old) counts.pins reads writes ticks) }
    ensures { Ran lane_zero (sizes counts.settled counts.regs counts.pins) inputs.now reads writes ticks work.old out.old work.new out.new }
{
    for t in 0..ticks {
        let from = t * reads;
        let to = t * writes;
        tick(work, inputs, out, counts, from, to);
    }
}

// The registers' outputs, by rising number; how many.
pub fn registers(work: &mut [u16], end: usize) -> usize
    requires { Listable work.old end }
    ensures { RegistersListed work.old end work.new result }
{
    let mut n: usize = 0;
    for x in 0..end {
        if work[x] == table::REGISTER_ENTRY {
            work[REGISTERS + n] = x as u16;
            n = n + 1;
        }
    }
    n
}
