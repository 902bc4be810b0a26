// The outputs that look at something within the tick.
ghost use Rattle.std.specs.Prelude.{◌≡◌, ◌+◌, ◌≤◌, ◌<◌, length};
ghost use Rattle.memory.specs.Map.{memory_size};
ghost use Rattle.trace_rings.specs.Lists.{looks_in, Choosable, Chosen};

use trace_steps::table;
use trace_steps::table::REST;

// Terminal x looks at something: a gate's output, or a point's.
fn looks(work: &[u16], x: usize) -> bool
    requires { (memory_size ≤ length work.now) × (x < 8192) }
    ensures { result ≡ looks_in work.now x }
{
    let entry = work[x];
    if entry == table::POINT_ENTRY {
        return true;
    }
    table::REGISTER_ENTRY < entry && entry < table::ONE_ENTRY
}

// Those that do, by falling number; how many.
pub fn list(work: &mut [u16], end: usize) -> usize
    requires { Choosable work.old end }
    ensures { Chosen work.old end work.new result }
{
    let mut n: usize = 0;
    for x in (0..end).rev() {
        if looks(&work[..], x) {
            work[REST + n] = x as u16;
            n = n + 1;
        }
    }
    n
}
