// The table of a run and its pins, copied from the lean netlist by terminal.
ghost use Rattle.std.specs.Prelude.{◌≡◌, ◌≤◌, ◌<◌, length};
ghost use Rattle.lean.specs.Table.{entry};
ghost use Rattle.memory.specs.Map.{memory_size};
ghost use Rattle.trace_steps.specs.Copied.{copied, TableCopied, PinsCopied};

use crate::table::{KIND, PINS};
use lean::LEAN;

// The entry of terminal x: an input without a wire has itself.
fn entry_of(work: &[u16], x: usize) -> u16
    requires { (memory_size ≤ length work.now) × (x < 8192) }
    ensures { result ≡ copied (entry work.now x) x }
{
    let v = work[LEAN + x];
    if v == 0 {
        return x as u16;
    }
    if v < KIND {
        return v - 1;
    }
    v
}

pub fn copy_table(work: &mut [u16], end: usize)
    requires { (memory_size ≤ length work.old) × (end ≤ 8192) }
    ensures { TableCopied work.old end work.new }
{
    for x in 0..end {
        work[x] = entry_of(&work[..], x);
    }
}

pub fn copy_pins(work: &mut [u16], pins: usize)
    requires { (memory_size ≤ length work.old) × (pins ≤ 128) }
    ensures { PinsCopied work.old pins work.new }
{
    for k in 0..pins {
        work[PINS + k] = work[lean::PINS + k];
    }
}
