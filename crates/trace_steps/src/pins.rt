// The bits of the pins, one byte a bit.
ghost use Rattle.std.specs.Prelude.{◌≡◌, ◌+◌, ◌≤◌, ◌<◌, length, set};
ghost use Rattle.memory.specs.Map.{memory_size};
ghost use Rattle.trace_calculus.specs.Trace.{all_bits};
ghost use Rattle.trace_steps.specs.Map.{bits_at};
ghost use Rattle.trace_steps.specs.Words.{word_at, lane_zero};
ghost use Rattle.trace_steps.specs.Pins.{in_pin_count, out_pin_count, PinsLow, Loading, Storing};

use crate::table;
use crate::table::{BITS, PINS};

// How many pins are inputs.
pub fn input_pins(work: &[u16], pins: usize) -> usize
    requires { PinsLow work.now pins }
    ensures { result ≡ in_pin_count work.now pins }
{
    let mut n: usize = 0;
    for k in 0..pins {
        if table::at(work, PINS + k) % 2 == 0 {
            n = n + 1;
        }
    }
    n
}

// Every byte is a bit.
pub fn all_bits(bytes: &[u8]) -> bool
    ensures { result ≡ all_bits bytes.now }
{
    for b in bytes {
        if 1 < *b {
            return false;
        }
    }
    true
}

// Terminal x gets this bit.
fn put(work: &mut [u16], x: usize, b: u8)
    requires { (memory_size ≤ length work.old) × (x < 8192) }
    ensures { work.new ≡ set work.old (bits_at + x) b }
{
    work[BITS + x] = b as u16;
}

// The input pins' bits of a tick, from byte `from` on; the next byte.
pub fn load(work: &mut [u16], inputs: &[u8], pins: usize, from: usize) -> usize
    requires { (PinsLow work.old pins) × (from + in_pin_count work.old pins ≤ length inputs.now) }
    ensures { Loading inputs.now work.old from pins work.new result }
{
    let mut at = from;
    for k in 0..pins {
        let code = table::at(&work[..], PINS + k);
        if code % 2 == 0 {
            put(work, code / 2, inputs[at]);
            at = at + 1;
        }
    }
    at
}

// The bit that terminal x has in lane 0.
fn bit_of(work: &[u16], x: usize) -> u8
    requires { (memory_size ≤ length work.now) × (x < 8192) }
    ensures { result ≡ lane_zero (word_at work.now x) }
{
    (work[BITS + x] % 2) as u8
}

// The output pins' bits of a tick, from byte `from` on; the next byte.
pub fn store(work: &[u16], out: &mut [u8], pins: usize, from: usize) -> usize
    requires { (PinsLow work.now pins) × (from + out_pin_count work.now pins ≤ length out.old) }
    ensures { Storing lane_zero work.now out.old from pins out.new result }
{
    let mut at = from;
    for k in 0..pins {
        let code = table::at(work, PINS + k);
        if code % 2 != 0 {
            out[at] = bit_of(work, code / 2);
            at = at + 1;
        }
    }
    at
}
