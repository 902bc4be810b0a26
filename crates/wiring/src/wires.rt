// Wires and runs of numbers in the working memory.
ghost use Rattle.std.specs.Prelude.{◌≡◌, ◌⊎◌, ◌+◌, ◌≤◌, ◌<◌, length, replicate};
ghost use Rattle.std.proofs.lemmas.List.Edits.{sets};
ghost use Rattle.memory.specs.Map.{memory_size, region};
ghost use Rattle.wiring.specs.Links.{wired, linked, links, Apart};

use memory::TARGETS;
use netlist::{In, Out, Terminal};

// Interfaces, elements and wires stand in the one working memory, since memory is fixed: so the functions here and in `faces` take an offset and a
// count, and no slices, of which two could not be lent at once. `count` is the number of the wire, here and in `link` and `connect`.
//
// The wire number `count`: its source is the driver of its target.
fn wire(work: &mut [u16], from: Out, to: In, count: usize)
    requires { (memory_size ≤ length work.old) × (to.0 < 8192) × (count < 5632) }
    ensures { work.new ≡ wired work.old count from.0 to.0 }
{
    work[to.0 as usize] = from.0;
    work[TARGETS + count] = to.0;
}

// The wire between two terminals of one bit: from the output to the input.
fn link(work: &mut [u16], a: u16, f: u16, count: usize)
    requires { (memory_size ≤ length work.old) × (a < 16384) × (f < 16384) × (count < 5632) }
    ensures { work.new ≡ linked work.old count a f }
{
    match (netlist::terminal_of(a), netlist::terminal_of(f)) {
        (Terminal::Output(from), Terminal::Input(to)) => wire(work, from, to, count),
        (Terminal::Input(to), Terminal::Output(from)) => wire(work, from, to, count),
        (Terminal::Output(_), Terminal::Output(_)) => {}
        (Terminal::Input(_), Terminal::Input(_)) => {}
    }
}

// n wires, left to right, between the argument's interface at a and the function's at f.
pub fn connect(work: &mut [u16], a: usize, f: usize, n: usize, count: usize)
    requires { Apart work.old a f n count }
    ensures { work.new ≡ links work.old count (region work.old a n) (region work.old f n) }
{
    for i in 0..n {
        let x = work[a + i];
        let y = work[f + i];
        link(work, x, y, count + i);
    }
}

// n numbers, copied.
pub fn copy(work: &mut [u16], from: usize, to: usize, n: usize)
    requires { (from + n ≤ length work.old) × (to + n ≤ length work.old) × ((to ≤ from) ⊎ (from + n ≤ to)) }
    ensures { work.new ≡ sets work.old to (region work.old from n) }
{
    work.copy_within(from..from + n, to);
}

// n numbers, all x. An offset and a count: with a slice the callers would write the same bounds.
pub fn fill(work: &mut [u16], to: usize, n: usize, x: u16)
    requires { to + n ≤ length work.old }
    ensures { work.new ≡ sets work.old to (replicate n x) }
{
    work[to..to + n].fill(x);
}
