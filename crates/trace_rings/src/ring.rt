// The lowest input on a ring that passes through no register, where some outputs are left that no order settles.
ghost use Rattle.std.specs.Prelude.{◌≡◌, ◌+◌, ◌≤◌, ◌<◌, length};
ghost use Rattle.memory.specs.Map.{memory_size};
ghost use Rattle.trace_steps.specs.Steps.{Looks};
ghost use Rattle.trace_steps.specs.Pins.{counted};
ghost use Rattle.trace_rings.specs.Rings.{Rest, InputAmong, meet_in, look_in, Fresh, Searched, SearchTold, RingFound};

use trace_steps::table;
use trace_steps::table::{BITS, ORDER, REST};

// Those met stand in the working memory from ORDER on, since memory is fixed; so `meet` and `look` are told how many there are, and hand it back.
//
// Output y gets the stamp and joins the n that are met, where it is not settled and has no such stamp yet; how many are met.
fn meet(work: &mut [u16], y: usize, stamp: u16, n: usize) -> usize
    requires { (memory_size ≤ length work.old) × ((y < 8192) × (n ≤ 5120)) }
    ensures { counted work.new result ≡ meet_in work.old y stamp n }
{
    let m = work[BITS + y];
    if m == 1 || m == stamp {
        return n;
    }
    work[BITS + y] = stamp;
    work[ORDER + n] = y as u16;
    n + 1
}

// Both that output o looks at are met.
fn look(work: &mut [u16], o: usize, stamp: u16, n: usize) -> usize
    requires { Looks work.old o × (n < 5120) }
    ensures { counted work.new result ≡ look_in work.old o stamp n }
{
    let x = table::first_of(&work[..], o);
    let a = table::at(&work[..], x);
    let k = meet(work, a, stamp, n);
    let b = table::at(&work[..], o - 1);
    meet(work, b, stamp, k)
}

// All that is behind input x gets the stamp.
fn search(work: &mut [u16], left: usize, x: usize, stamp: u16)
    requires { (Rest work.old left) × (InputAmong work.old left x × Fresh work.old stamp) }
    ensures { Searched work.old x stamp work.new }
{
    let first = table::at(&work[..], x);
    let mut n = meet(work, first, stamp, 0);
    let mut h: usize = 0;
    // No counted loop: n grows in it.
    while h < n {
        let o = table::at(&work[..], ORDER + h);
        n = look(work, o, stamp, n);
        h = h + 1;
    }
}

// Output o is behind its input x.
fn on_ring(work: &mut [u16], left: usize, x: usize, o: usize, stamp: u16) -> bool
    requires { (Rest work.old left) × (InputAmong work.old left x × (Fresh work.old stamp × (o < 8192))) }
    ensures { SearchTold work.old x stamp o work.new result }
{
    search(work, left, x, stamp);
    work[BITS + o] == stamp
}

// The lowest input on a ring. Those left stand by falling number.
pub fn lowest(work: &mut [u16], left: usize) -> usize
    requires { Rest work.old left × Fresh work.old 2 }
    ensures { RingFound work.old left work.new result }
{
    let mut stamp: u16 = 2;
    for j in (0..left).rev() {
        let o = table::at(&work[..], REST + j);
        let x = table::first_of(&work[..], o);
        if on_ring(work, left, x, o, stamp) {
            return x;
        }
        if on_ring(work, left, o - 1, o, stamp + 1) {
            return o - 1;
        }
        stamp = stamp + 2;
    }
    0
}
