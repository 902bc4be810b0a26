// The lean netlist by terminal, in the place of the roots, made of the full netlist and the roots; its pins behind it.
ghost use Rattle.std.specs.Prelude.{◌≡◌, ℕ, ◌+◌, ◌/◌, ◌≤◌, ◌<◌, ◌∷◌, [], length, get_or, set};
ghost use Rattle.calculus.specs.Net.{point};
ghost use Rattle.memory.specs.Map.{elements_at, roots_at, memory_size, region, elements_from};
ghost use Rattle.netlist.specs.Elements.{output_of, after, after_all};
ghost use Rattle.lean.specs.Table.{entry};
ghost use Rattle.lean.specs.Layout.{first_terminal, link_in, Linkable, Linked, rooted_in, Rootable, Pinned, name_one, named_all, Passed};

use memory::{ELEMENTS, NONE, POINT, ROOTS, STACK};

// By terminal, what the pass says of it.
pub const LEAN: usize = ROOTS;

// The pins.
pub const PINS: usize = 27264;

// An output's entry is KIND and its element's kind, or LEFT_OUT.
pub const KIND: u16 = 65520;

pub const LEFT_OUT: u16 = 65528;

// Terminal x gets one more than the root of its driver, where it has one.
fn link_one(work: &mut [u16], x: usize)
    requires { (memory_size ≤ length work.old) × ((x < 8192) × ((get_or work.old x 0 ≡ 65535 → ⊥) → (get_or work.old x 0 < 8192) × (entry work.old (get_or work.old x 0) < 8192))) }
    ensures { work.new ≡ set work.old (roots_at + x) (link_in work.old x) }
{
    let d = work[x];
    if d != NONE {
        work[ROOTS + x] = work[ROOTS + d as usize] + 1;
    }
}

// The inputs that have a driver.
pub fn link(work: &mut [u16], end: u16)
    requires { Linkable work.old end }
    ensures { Linked work.old end work.new }
{
    for x in 0..end as usize {
        link_one(work, x);
    }
}

// A pin's code, an output's root in its place.
fn rooted(work: &[u16], code: u16) -> u16
    requires { (memory_size ≤ length work.now) × ((code / 2 < 8192) × (entry work.now (code / 2) ≤ 8192)) }
    ensures { result ≡ rooted_in work.now code }
{
    if code % 2 == 0 {
        return code;
    }
    2 * work[ROOTS + (code / 2) as usize] + 1
}

// The pins, by their roots.
pub fn root_pins(work: &mut [u16], pins: usize)
    requires { Rootable work.old pins }
    ensures { Pinned work.old pins work.new }
{
    for j in 0..pins {
        let code = work[STACK + j];
        work[PINS + j] = rooted(&work[..], code);
    }
}

// The point whose input is n: kept where its output is its own root, and else left out.
fn name_point(work: &mut [u16], n: u16)
    requires { (memory_size ≤ length work.old) × (n + 2 ≤ 8192) }
    ensures { work.new ≡ name_one work.old (point n) }
{
    let o = n + 1;
    if work[ROOTS + o as usize] == o {
        work[ROOTS + o as usize] = KIND + POINT;
    } else {
        work[ROOTS + n as usize] = 0;
        work[ROOTS + o as usize] = LEFT_OUT;
    }
}

// The element of this kind that starts at terminal n; the next free terminal. The kind is the number that the working memory holds, here and in
// `first_of`: see netlist::output_of.
fn name_one(work: &mut [u16], kind: u16, n: u16) -> u16
    requires { (memory_size ≤ length work.old) × ((kind < 8) × (after kind n ≤ 8192)) }
    ensures { (result ≡ after kind n) × (work.new ≡ named_all work.old (elements_from (kind ∷ []) n)) }
{
    if kind == POINT {
        name_point(work, n);
        return n + 2;
    }
    let o = netlist::output_of(kind, n);
    work[ROOTS + o.0 as usize] = KIND + kind;
    o.0 + 1
}

// All elements.
pub fn name(work: &mut [u16], elements: usize)
    requires { (memory_size ≤ length work.old) × ((elements ≤ 5120) × ((after_all (region work.old elements_at elements) 0 ≤ 8192)
        × ((i : ℕ) → i < elements → get_or work.old (elements_at + i) 0 < 8))) }
    ensures { work.new ≡ named_all work.old (elements_from (region work.old elements_at elements) 0) }
{
    let mut n: u16 = 0;
    for i in 0..elements {
        let kind = work[ELEMENTS + i];
        n = name_one(work, kind, n);
    }
}

// The first terminal of the element of this kind whose output is x.
pub fn first_of(kind: u16, x: usize) -> u16
    requires { (output_of kind 0 ≤ x) × (x < 8192) }
    ensures { result ≡ first_terminal kind x }
{
    let inputs = netlist::output_of(kind, 0);
    x as u16 - inputs.0
}

// Behind terminal x, and behind the output that follows it: to an output there is no wire.
pub fn behind(work: &[u16], x: usize) -> usize
    requires { (memory_size ≤ length work.now) × (x < 8192) }
    ensures { Passed work.now x result }
{
    if work[LEAN + (x + 1)] >= KIND {
        x + 2
    } else {
        x + 1
    }
}
