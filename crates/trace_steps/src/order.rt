// What is settled, and what is ready to be.
ghost use Rattle.std.specs.Prelude.{◌≡◌, ◌+◌, ◌≤◌, ◌<◌, length, set};
ghost use Rattle.memory.specs.Map.{memory_size};
ghost use Rattle.trace_steps.specs.Map.{rest_at};
ghost use Rattle.trace_steps.specs.Steps.{Looks, ready_in, free_in, mark_one};
ghost use Rattle.trace_steps.specs.Turns.{Looped};
ghost use Rattle.trace_steps.specs.Sweeps.{settle_at, Sweepable, Swept, AllSwept};

use crate::table;
use crate::table::{BITS, ORDER, REST};

// What looks at nothing is settled from the start: pins, registers, zero and one.
fn free(work: &[u16], x: usize) -> bool
    requires { (memory_size ≤ length work.now) × (x < 8192) }
    ensures { result ≡ free_in work.now x }
{
    let entry = work[x];
    entry as usize == x
        || matches!(
            entry,
            table::ZERO_ENTRY | table::REGISTER_ENTRY | table::ONE_ENTRY
        )
}

pub fn mark_free(work: &mut [u16], end: usize)
    requires { (memory_size ≤ length work.old) × (end ≤ 8192) }
    ensures { Looped mark_one end work.old work.new }
{
    for x in 0..end {
        let f = free(&work[..], x);
        work[BITS + x] = table::byte(f);
    }
}

// All that output o looks at is settled.
fn ready(work: &[u16], o: usize) -> bool
    requires { Looks work.now o }
    ensures { result ≡ ready_in work.now o }
{
    let x = table::first_of(work, o);
    let a = table::is_fed(work, x);
    let b = table::is_fed(work, o - 1);
    a && b
}

// Output o is settled: it goes to the order, and gets its mark.
fn settle_one(work: &mut [u16], o: usize, done: usize)
    requires { (memory_size ≤ length work.old) × ((o < 8192) × (done < 5120)) }
    ensures { work.new ≡ settle_at work.old done o }
{
    work[ORDER + done] = o as u16;
    work[BITS + o] = 1;
}

// Output o stays.
fn keep_one(work: &mut [u16], o: usize, kept: usize)
    requires { (memory_size ≤ length work.old) × ((o < 8192) × (kept < 5120)) }
    ensures { work.new ≡ set work.old (rest_at + kept) o }
{
    work[REST + kept] = o as u16;
}

// One sweep over those left: what is ready goes to the order, the others stay; how many stay.
fn sweep(work: &mut [u16], total: usize, left: usize) -> usize
    requires { Sweepable work.old total left }
    ensures { Swept work.old total left work.new result }
{
    let mut done = total - left;
    let mut kept: usize = 0;
    for j in 0..left {
        let o = table::at(&work[..], REST + j);
        if ready(&work[..], o) {
            settle_one(work, o, done);
            done = done + 1;
        } else {
            keep_one(work, o, kept);
            kept = kept + 1;
        }
    }
    kept
}

// Sweeps, until none is left or one settles none; how many are left. A `while`: a sweep says how many stay, so there is nothing to count by.
pub fn settle(work: &mut [u16], total: usize) -> usize
    requires { Sweepable work.old total total }
    ensures { AllSwept work.old total work.new result }
{
    let mut left = total;
    while left > 0 {
        let kept = sweep(work, total, left);
        if kept == left {
            return left;
        }
        left = kept;
    }
    0
}
