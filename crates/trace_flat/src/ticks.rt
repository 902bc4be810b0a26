// Ticks over the flat layout, for one trace or sixteen: a tick's inputs and outputs are bytes of one bit each, or numbers with a bit for each trace.
ghost use Rattle.std.specs.Prelude.{◌≡◌, ℕ, ◌+◌, ◌≤◌, ◌<◌, length, get_or, set, map};
ghost use Rattle.memory.specs.Map.{memory_size};
ghost use Rattle.trace_steps.specs.Map.{order_at};
ghost use Rattle.trace_steps.specs.Words.{lane_zero, entire};
ghost use Rattle.trace_flat.specs.Flat.{flat_most, shown_at, ins_at, outs_at, Stretched};
ghost use Rattle.trace_flat.specs.FlatTicks.{Place, Celled, Flat, counts, flat_wake, flat_load, flat_store, WrittenBy, FlatTicked, FlatFits, FlatRan};

use crate::layout::{INS, OUTS, SHOWN};
use crate::steps;

// What a trace gives an input pin, or an output pin shows, at one tick.
pub trait Sample: Copy {
    ghost lanes: { Self → ℕ };

    ghost shows: { ℕ → ℕ };

    // The lanes that it gives a pin.
    fn lanes(self) -> u16
        ensures { result ≡ lanes self };

    // What is shown of a pin's lanes.
    fn show(word: u16) -> Self
        ensures { lanes result ≡ shows word };
}

// One bit: lane 0.
impl Sample for u8 {
    ghost lanes = { λ b. b };

    ghost shows = { lane_zero };

    fn lanes(self) -> u16 {
        self as u16
    }

    fn show(word: u16) -> u8 {
        (word % 2) as u8
    }
}

// All sixteen.
impl Sample for u16 {
    ghost lanes = { λ w. w };

    ghost shows = { entire };

    fn lanes(self) -> u16 {
        self
    }

    fn show(word: u16) -> u16 {
        word
    }
}

// How many gates the order has, and how many registers, input pins and output pins there are.
#[derive(Clone, Copy, Debug, PartialEq, Eq)]
pub struct Sizes {
    pub settled: usize,
    pub regs: usize,
    pub ins: usize,
    pub outs: usize,
}

// The registers' start bits.
pub fn wake<T: Sample>(work: &mut [u16], starts: &[T], regs: usize)
    requires { (memory_size ≤ length work.old) × ((regs ≤ flat_most) × (regs ≤ length starts.now)) }
    ensures { Stretched shown_at order_at (flat_wake (map T.lanes starts.now)) regs work.old work.new }
{
    for j in 0..regs {
        work[SHOWN + j] = starts[j].lanes();
    }
}

// The k-th input pin gets these bits.
fn put(work: &mut [u16], k: usize, v: u16)
    requires { (memory_size ≤ length work.old) × ((k < 128) × (get_or work.old (ins_at + k) 0 < memory_size)) }
    ensures { work.new ≡ set work.old (get_or work.old (ins_at + k) 0) v }
{
    let y = work[INS + k] as usize;
    work[y] = v;
}

// The input pins' bits of a tick, from item `from` on.
fn load<T: Sample>(work: &mut [u16], inputs: &[T], ins: usize, from: usize)
    requires { (memory_size ≤ length work.old) × ((ins ≤ 128) × (((k : ℕ) → k < ins → Place (get_or work.old (ins_at + k) 0)) × (from + ins ≤ length inputs.now))) }
    ensures { Celled (flat_load (map T.lanes inputs.now) from) ins work.old work.new }
{
    for k in 0..ins {
        put(work, k, inputs[from + k].lanes());
    }
}

// The output pins' bits of a tick, to item `to` on.
fn store<T: Sample>(work: &[u16], out: &mut [T], outs: usize, to: usize)
    requires { (memory_size ≤ length work.now) × ((outs ≤ 128) × (((k : ℕ) → k < outs → get_or work.now (outs_at + k) 0 < memory_size) × (to + outs ≤ length out.old))) }
    ensures { WrittenBy (flat_store T.shows work.now to) outs (map T.lanes out.old) (map T.lanes out.new) }
{
    for k in 0..outs {
        out[to + k] = T::show(steps::there(work, OUTS + k));
    }
}

// One tick: its inputs from `from` on, its outputs to `to` on.
fn tick<T: Sample>(
    work: &mut [u16],
    inputs: &[T],
    out: &mut [T],
    sizes: Sizes,
    from: usize,
    to: usize,
)
    requires { (Flat work.old sizes.settled sizes.regs sizes.ins sizes.outs) × ((from + sizes.ins ≤ length inputs.now) × (to + sizes.outs ≤ length out.old)) }
    ensures { FlatTicked T.shows (counts sizes.settled sizes.regs sizes.ins sizes.outs) (map T.lanes inputs.now) from to work.old (map T.lanes out.old) work.new (map T.lanes out.new) }
{
    load(work, inputs, sizes.ins, from);
    steps::pass(work, sizes.settled);
    store(&work[..], out, sizes.outs, to);
    steps::hold(work, sizes.regs);
    steps::turn(work, sizes.regs);
}

// So many ticks, each with so many inputs and outputs.
pub fn run<T: Sample>(work: &mut [u16], inputs: &[T], out: &mut [T], sizes: Sizes, ticks: usize)
    requires { (Flat work.old sizes.settled sizes.regs sizes.ins sizes.outs) × (FlatFits (length inputs.now) (length out.old) sizes.ins sizes.outs ticks) }
    ensures { FlatRan T.shows (counts sizes.settled sizes.regs sizes.ins sizes.outs) (map T.lanes inputs.now) ticks work.old (map T.lanes out.old) work.new (map T.lanes out.new) }
{
    for t in 0..ticks {
        let from = t * sizes.ins;
        let to = t * sizes.outs;
        tick(work, inputs, out, sizes, from, to);
    }
}
