// Marks at the outputs that wires come from and that pins show.
ghost use Rattle.std.specs.Prelude.{◌≡◌, ◌/◌, ◌≤◌, ◌<◌, length, cond, ltb};
ghost use Rattle.memory.specs.Map.{roots_at, memory_size};
ghost use Rattle.export_calculus.specs.Card.{drives};
ghost use Rattle.lean.specs.Layout.{kinds_from, wire_at, row_in};
ghost use Rattle.card.specs.Marks.{mark_wire, mark_pin, Markable, MarkedWhere, WiresMarked, PinsMarked, unread_by, unread_from, without_mark, Cleaned};

use lean::{KIND, LEAN, PINS};

// No output's number, and not NONE.
pub const READ: u16 = 65534;

// No terminal's number.
const NOWHERE: u16 = memory::TERMINALS as u16;

// At the output that an entry tells.
fn mark_wire(work: &mut [u16], v: u16)
    requires { (8192 ≤ length work.old) × (v < kinds_from → v ≤ 8192) }
    ensures { work.new ≡ mark_wire work.old v }
{
    if v == 0 {
        return;
    }
    if v >= KIND {
        return;
    }
    work[v as usize - 1] = READ;
}

// For all wires.
pub fn mark_wires(work: &mut [u16], end: usize, pins: usize)
    requires { Markable work.old end pins }
    ensures { MarkedWhere work.old end (λ j. drives (row_in wire_at roots_at work.old end 0) j) work.new }
{
    let mut x: usize = 0;
    while x < end {
        let v = work[LEAN + x];
        mark_wire(work, v);
        x = lean::behind(&work[..], x);
    }
}

// At the output that a pin's code tells.
fn mark_pin(work: &mut [u16], code: u16)
    requires { (8192 ≤ length work.old) × (code / 2 < 8192) }
    ensures { work.new ≡ mark_pin work.old code }
{
    if code % 2 == 0 {
        return;
    }
    work[(code / 2) as usize] = READ;
}

// For all pins, once those of the wires stand.
pub fn mark_pins(work: &mut [u16], end: usize, pins: usize)
    requires { WiresMarked work.old end pins }
    ensures { PinsMarked work.old end pins work.new }
{
    for i in 0..pins {
        let code = work[PINS + i];
        mark_pin(work, code);
    }
}

// Terminal x, where its mark m and its entry v say that it is a part's output that nobody reads; else 8,192.
fn place_of(m: u16, v: u16, x: u16) -> u16
    ensures { result ≡ cond (unread_by m v) x 8192 }
{
    if m == READ {
        return NOWHERE;
    }
    if v < KIND {
        return NOWHERE;
    }
    if v >= KIND + memory::POINT {
        return NOWHERE;
    }
    x
}

fn lower(a: u16, b: u16) -> u16
    ensures { result ≡ cond (ltb a b) a b }
{
    if a < b { a } else { b }
}

fn without_mark(m: u16) -> u16
    ensures { result ≡ without_mark m }
{
    if m == READ { memory::NONE } else { m }
}

// All terminals: the lowest that nobody reads, 8,192 for none; the marks are taken away. Without a way out before the end and without branches, so
// that the compiler takes several terminals at once: the ways out of `place_of` have no effects. So the lowest is a number, and no `Option`.
pub fn clean(work: &mut [u16], end: usize) -> u16
    requires { (memory_size ≤ length work.old) × (end ≤ 8192) }
    ensures { (result ≡ unread_from work.old end 0) × Cleaned work.old end work.new }
{
    let mut lowest = NOWHERE;
    for x in 0..end {
        let m = work[x];
        let v = work[LEAN + x];
        lowest = lower(place_of(m, v, x as u16), lowest);
        work[x] = without_mark(m);
    }
    lowest
}
