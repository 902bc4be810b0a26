// The table of roots: how it starts, how an output is settled, and what it says of a point.
ghost use Rattle.std.specs.Prelude.{◌≡◌, ◌+◌, ◌-◌, ◌≤◌, ◌<◌, length, get_or, set, IfSome};
ghost use Rattle.calculus.specs.Lean.{root};
ghost use Rattle.memory.specs.Map.{elements_at, roots_at, memory_size, region, net_in};
ghost use Rattle.netlist.specs.Elements.{output_of, after, after_all};
ghost use Rattle.lean.specs.Table.{entry, Blank, start_root, started, Partly, Output, Comes, WalkedBack, Met, Settled};

use memory::{ELEMENTS, NONE, POINT, ROOTS, TERMINALS};
use netlist::Out;

// The numbers of elements, wires and pins of the full netlist that stands in the working memory.
#[derive(Clone, Copy, Debug, PartialEq, Eq)]
pub struct Full {
    pub elements: usize,
    pub wires: usize,
    pub pins: usize,
}

// Every entry of the table is 0.
pub fn blank(work: &mut [u16])
    requires { memory_size ≤ length work.old }
    ensures { Blank work.old work.new }
{
    work[ROOTS..ROOTS + TERMINALS].fill(0);
}

// The kind is the number that the working memory holds, here and in `start_one`: see netlist::output_of.
//
// Of an element's output o: one that stays is its own root; any other is not settled yet.
fn first_of(work: &[u16], kind: u16, n: u16, o: Out) -> u16
    requires { (memory_size ≤ length work.now) × ((after kind n ≤ 8192) × (o.0 ≡ output_of kind n)) }
    ensures { result ≡ start_root work.now kind n }
{
    if kind == POINT {
        if work[n as usize] != NONE {
            return NONE;
        }
    }
    o.0
}

// The entry of the element of this kind that starts at terminal n; the next free terminal.
fn start_one(work: &mut [u16], kind: u16, n: u16) -> u16
    requires { (memory_size ≤ length work.old) × (after kind n ≤ 8192) }
    ensures { (result ≡ after kind n)
        × (work.new ≡ set work.old (roots_at + output_of kind n) (start_root work.old kind n)) }
{
    let o = netlist::output_of(kind, n);
    let first = first_of(work, kind, n, o);
    work[ROOTS + o.0 as usize] = first;
    o.0 + 1
}

// The table as it starts; the first terminal that no element takes. pass::name has the same loop: one function for both would take a
// closure that changes the memory, and its contract would be longer than the loop.
pub fn start(work: &mut [u16], elements: usize) -> u16
    requires { (memory_size ≤ length work.old) × ((elements ≤ 5120) × (after_all (region work.old elements_at elements) 0 ≤ 8192)) }
    ensures { (result ≡ after_all (region work.old elements_at elements) 0)
        × (work.new ≡ started work.old (region work.old elements_at elements) 0) }
{
    let mut n: u16 = 0;
    for i in 0..elements {
        let kind = work[ELEMENTS + i];
        n = start_one(work, kind, n);
    }
    n
}

// The memory and what is known of it stay two arguments, here and in `walk`, `meet`, `round` and `near`: `settle` changes the memory between two looks.
//
// One step back from output x, which is not settled.
fn back_of(work: &[u16], full: Full, x: Out) -> Out
    requires { Partly work.now full.elements full.wires full.pins × (Output work.now full.elements full.wires full.pins x.0 × (entry work.now x.0 ≡ 65535)) }
    ensures { result.0 ≡ get_or work.now (x.0 - 1) 0 }
{
    Out(work[x.0 as usize - 1])
}

// At most so many steps back from an output, to one that is settled or to the start again.
fn walk(work: &[u16], full: Full, mark: Out, steps: usize) -> Out
    requires { Partly work.now full.elements full.wires full.pins × (Output work.now full.elements full.wires full.pins mark.0 × (1 ≤ steps)) }
    ensures { WalkedBack work.now full.elements full.wires full.pins mark.0 steps result.0 }
{
    let mut x = mark;
    for _ in 0..steps {
        if work[ROOTS + x.0 as usize] != NONE {
            return x;
        }
        x = back_of(work, full, x);
        if x.0 == mark.0 {
            return x;
        }
    }
    x
}

// Steps back from output o, to one that is settled or comes round: Brent's way, with a mark that moves up after 1, 2, 4, 8, .. steps.
fn meet(work: &[u16], full: Full, o: Out) -> Out
    requires { Partly work.now full.elements full.wires full.pins × Output work.now full.elements full.wires full.pins o.0 }
    ensures { Met work.now full.elements full.wires full.pins o.0 result.0 }
{
    let mut mark = o;
    let mut span: usize = 1;
    while span <= TERMINALS {
        let x = walk(work, full, mark, span);
        if work[ROOTS + x.0 as usize] != NONE {
            return x;
        }
        if x.0 == mark.0 {
            return x;
        }
        mark = x;
        span = 2 * span;
    }
    mark
}

// The root of output o, which is settled or comes round: the lowest, once round.
fn round(work: &[u16], full: Full, o: Out) -> Out
    requires { Partly work.now full.elements full.wires full.pins × (Output work.now full.elements full.wires full.pins o.0
        × (entry work.now o.0 ≡ 65535 → Comes (net_in work.now full.elements full.wires full.pins) o.0)) }
    ensures { result.0 ≡ root (net_in work.now full.elements full.wires full.pins) o.0 }
{
    let mut x = o;
    let mut low = o;
    for _ in 0..TERMINALS {
        let r = work[ROOTS + x.0 as usize];
        if r != NONE {
            return Out(r);
        }
        x = back_of(work, full, x);
        if x.0 == o.0 {
            return low;
        }
        if x.0 < low.0 {
            low = x;
        }
    }
    low
}

// From o back, each output that is not settled gets o's root r.
fn settle(work: &mut [u16], full: Full, o: Out, r: Out)
    requires { Partly work.old full.elements full.wires full.pins × (Output work.old full.elements full.wires full.pins o.0
        × (r.0 ≡ root (net_in work.old full.elements full.wires full.pins) o.0)) }
    ensures { Settled work.old work.new full.elements full.wires full.pins o.0 }
{
    let mut x = o;
    for _ in 0..TERMINALS {
        if work[ROOTS + x.0 as usize] != NONE {
            return;
        }
        let next = back_of(work, full, x);
        work[ROOTS + x.0 as usize] = r.0;
        x = next;
    }
}

// The root of output o, which is not settled, where one step back tells it: o itself where it drives itself, else what the table has of its
// driver.
fn near(work: &[u16], full: Full, o: Out) -> Option<Out>
    requires { Partly work.now full.elements full.wires full.pins × (Output work.now full.elements full.wires full.pins o.0 × (entry work.now o.0 ≡ 65535)) }
    ensures { IfSome result (λ r. r.0 ≡ root (net_in work.now full.elements full.wires full.pins) o.0) }
{
    let d = back_of(work, full, o);
    if d.0 == o.0 {
        return Some(o);
    }
    let r = work[ROOTS + d.0 as usize];
    if r == NONE { None } else { Some(Out(r)) }
}

// Output o, which is not settled, is: by what it comes to.
fn root_far(work: &mut [u16], full: Full, o: Out)
    requires { Partly work.old full.elements full.wires full.pins × Output work.old full.elements full.wires full.pins o.0 }
    ensures { Settled work.old work.new full.elements full.wires full.pins o.0 }
{
    let x = meet(work, full, o);
    let r = round(work, full, x);
    settle(work, full, o, r);
}

// Terminal n is settled, if it is an output. Most are by one step back.
pub fn root_one(work: &mut [u16], full: Full, n: u16)
    requires { Partly work.old full.elements full.wires full.pins × (n < 8192) }
    ensures { Settled work.old work.new full.elements full.wires full.pins n }
{
    if work[ROOTS + n as usize] == NONE {
        match near(work, full, Out(n)) {
            Some(r) => work[ROOTS + n as usize] = r.0,
            None => root_far(work, full, Out(n)),
        }
    }
}
