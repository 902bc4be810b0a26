// The making walk: what a term makes, its interface on a stack in the working memory.
// The sheet's bytes and its types' sizes stay two arguments: in one struct, each clause would have to name two fields of it.
// Node, state and memory go one by one too: the memory is written, and in a struct with the other two each clause would also have to say that these stay.
// A binder's place stays a number, 2 n + 1 or 2 h: it is kept in the fixed memory.
ghost use Rattle.std.specs.Prelude.{◌≡◌, true, false, ◌∷◌, [], ◌+◌, ◌*◌, ◌≤◌, ◌<◌, length, get_or};
ghost use Rattle.std.proofs.lemmas.List.Edits.{sets};
ghost use Rattle.records.specs.Rules.{is_constant};
ghost use Rattle.memory.specs.Map.{binders_at, memory_size};
ghost use Rattle.wiring.specs.Links.{Apart};
ghost use Rattle.wiring.specs.Sides.{KnownType};
ghost use Rattle.wiring.specs.Asks.{Asks, Here, Leaves, Showable, shown, Opened, Entered, looped, closed, closed_in, Closable, halved, Between, middle, between_in, applied_in, Finishable, finished, finished_in};

use crate::{faces, wires};
use memory::{BINDERS, ELEMENTS, POINT, STACK};
use records::{Node, Rule};

// The next free terminal, the numbers of elements and wires made, the height of the stack and the number of binders in scope.
#[derive(Clone, Copy, Debug, PartialEq, Eq)]
pub struct State {
    pub next: usize,
    pub elements: usize,
    pub wires: usize,
    pub top: usize,
    pub scope: usize,
}

// What a term leaves: the offset past it, its type, the length of its interface at the height on entry, and the numbers after it.
#[derive(Clone, Copy, Debug, PartialEq, Eq)]
pub struct Built {
    pub past: usize,
    pub ty: u8,
    pub len: usize,
    pub next: usize,
    pub elements: usize,
    pub wires: usize,
}

// The binder number k, counted from the outermost: its type, and where its interface is.
fn bind(work: &mut [u16], k: usize, t: u8, place: usize)
    requires { (memory_size ≤ length work.old) × (k < 128) × (place < 65536) }
    ensures { work.new ≡ sets work.old (binders_at + 2 * k) (t ∷ place ∷ []) }
{
    work[BINDERS + 2 * k] = t as u16;
    work[BINDERS + 2 * k + 1] = place as u16;
}

// The output interface of a binder of type t: that of points, or numbers further down on the stack.
fn show(s: &[u8], sizes: &[u8], work: &mut [u16], to: usize, t: u8, place: usize)
    requires { Showable s.now sizes.now (length work.old) to t place }
    ensures { (q : KnownType s.now sizes.now t)
        → work.new ≡ sets work.old to (shown q.table (get_or sizes.now t 0) work.old t place) }
{
    let n = place / 2;
    if place % 2 == 1 {
        faces::interface(s, sizes, work, to, t, n, true);
    } else {
        wires::copy(work, STACK + n, to, faces::size_of(sizes, t));
    }
}

// A variable: its binder's output interface.
fn variable(s: &[u8], sizes: &[u8], work: &mut [u16], node: Node, st: State) -> Built
    requires { (Here s.now sizes.now work.old node st) × (node.subterms ≡ 0) × (is_constant node.rule ≡ false) }
    ensures { (q : Here s.now sizes.now work.old node st) → Leaves q.asks result work.new }
{
    let k = BINDERS + 2 * (st.scope - 1 - records::wide(node.first));
    let ty = work[k] as u8;
    let place = work[k + 1] as usize;
    let len = faces::size_of(sizes, ty);
    show(s, sizes, work, STACK + st.top, ty, place);
    Built {
        past: node.next,
        ty,
        len,
        next: st.next,
        elements: st.elements,
        wires: st.wires,
    }
}

// A constant: its part.
fn constant(s: &[u8], sizes: &[u8], work: &mut [u16], node: Node, st: State) -> Built
    requires { (Here s.now sizes.now work.old node st) × (is_constant node.rule ≡ true) }
    ensures { (q : Here s.now sizes.now work.old node st) → Leaves q.asks result work.new }
{
    let number = node.first as u16;
    let part = parts::part_of(number);
    let inputs = part.inputs as usize;
    let len = inputs + part.outputs as usize;
    work[ELEMENTS + st.elements] = number;
    faces::terminals(work, STACK + st.top, inputs, st.next);
    Built {
        past: node.next,
        ty: node.second,
        len,
        next: st.next + len,
        elements: st.elements + 1,
        wires: st.wires,
    }
}

fn leaf(s: &[u8], sizes: &[u8], work: &mut [u16], node: Node, st: State) -> Built
    requires { (Here s.now sizes.now work.old node st) × (node.subterms ≡ 0) }
    ensures { (q : Here s.now sizes.now work.old node st) → Leaves q.asks result work.new }
{
    match node.rule {
        Rule::Constant => constant(s, sizes, work, node, st),
        _ => variable(s, sizes, work, node, st),
    }
}

// Before the body of a function or a fixed point: its points, its input interface on the stack, and its binder.
fn open(s: &[u8], sizes: &[u8], work: &mut [u16], node: Node, st: State) -> State
    requires { (Here s.now sizes.now work.old node st) × (node.subterms ≡ 1) }
    ensures { (q : Here s.now sizes.now work.old node st) → Opened q result work.new }
{
    let t = records::bound_by(s, node);
    let l = faces::size_of(sizes, t);
    wires::fill(work, ELEMENTS + st.elements, l, POINT);
    faces::interface(s, sizes, work, STACK + st.top, t, st.next, false);
    bind(work, st.scope, t, 2 * st.next + 1);
    State {
        next: st.next + 2 * l,
        elements: st.elements + l,
        top: st.top + l,
        scope: st.scope + 1,
        ..st
    }
}

// The body's interface, of l bits, stands above the input interface of a fixed point: it is wired to that, and moved down.
fn close_loop(work: &mut [u16], at: usize, l: usize, wires: usize)
    requires { Apart work.old (at + l) at l wires }
    ensures { work.new ≡ looped work.old at l wires }
{
    wires::connect(work, at + l, at, l, wires);
    wires::copy(work, at + l, at, l);
}

// After the body, whose interface stands above the input interface: of a function both are the result, of a fixed point the body's.
fn close(work: &mut [u16], node: Node, top: usize, l: usize, r: Built) -> Built
    requires { Closable work.old node top l r }
    ensures { (result ≡ closed node l r) × (work.new ≡ closed_in work.old node top l r) }
{
    let ty = node.first;
    match node.rule {
        Rule::FixedPoint => {
            close_loop(work, STACK + top, l, r.wires);
            Built {
                ty,
                len: l,
                wires: r.wires + l,
                ..r
            }
        }
        _ => Built {
            ty,
            len: l + r.len,
            ..r
        },
    }
}

// The halves of a product of type t, whose interface stands at height `top`, are bound: the second is the nearer.
fn bind_halves(s: &[u8], sizes: &[u8], work: &mut [u16], t: u8, scope: usize, top: usize)
    requires { (length sizes.now ≡ 256) × (memory_size ≤ length work.old) × (scope + 1 < 128) × (top ≤ 8448) }
    ensures { work.new ≡ halved s.now sizes.now work.old t scope top }
{
    let x = records::sides_of(s, t);
    let l = faces::size_of(sizes, x.left);
    bind(work, scope, x.left, 2 * top);
    bind(work, scope + 1, x.right, 2 * (top + l));
}

// Between two subterms: a projection binds the two halves of the first, 1B the whole first.
fn between(s: &[u8], sizes: &[u8], work: &mut [u16], node: Node, st: State, f: Built) -> State
    requires { Between sizes.now work.old st f }
    ensures { (result ≡ middle node st f) × (work.new ≡ between_in s.now sizes.now work.old node st f) }
{
    let above = State {
        next: f.next,
        elements: f.elements,
        wires: f.wires,
        top: st.top + f.len,
        scope: st.scope,
    };
    match node.rule {
        Rule::Projection => {
            bind_halves(s, sizes, work, f.ty, st.scope, st.top);
            State {
                scope: st.scope + 2,
                ..above
            }
        }
        Rule::Naming => {
            bind(work, st.scope, f.ty, 2 * st.top);
            State {
                scope: st.scope + 1,
                ..above
            }
        }
        _ => above,
    }
}

// An argument's interface, of m bits, stands above the function's, of l bits: it is wired to the start of that, and the rest moved down.
fn apply(work: &mut [u16], at: usize, l: usize, m: usize, wires: usize)
    requires { (m ≤ l) × (at + l ≤ length work.old) × Apart work.old (at + l) at m wires }
    ensures { work.new ≡ applied_in work.old at l m wires }
{
    wires::connect(work, at + l, at, m, wires);
    wires::copy(work, at + m, at, l - m);
}

// After two subterms, the second's interface above the first's: of a projection or 1B the body's is the result, of a pair both, of an
// application the rest of the function's.
fn finish(s: &[u8], work: &mut [u16], node: Node, top: usize, f: Built, x: Built) -> Built
    requires { Finishable work.old node top f x }
    ensures { (result ≡ finished s.now node f x) × (work.new ≡ finished_in work.old node top f x) }
{
    match node.rule {
        Rule::Projection | Rule::Naming => {
            wires::copy(work, STACK + top + f.len, STACK + top, x.len);
            x
        }
        Rule::Pair => Built {
            ty: node.first,
            len: f.len + x.len,
            ..x
        },
        _ => {
            apply(work, STACK + top, f.len, x.len, x.wires);
            Built {
                ty: records::sides_of(s, f.ty).right,
                len: f.len - x.len,
                wires: x.wires + x.len,
                ..x
            }
        }
    }
}

// Before the first subterm: a function or a fixed point is opened, and nothing else is done.
fn enter(s: &[u8], sizes: &[u8], work: &mut [u16], node: Node, st: State) -> State
    requires { Here s.now sizes.now work.old node st }
    ensures { (q : Here s.now sizes.now work.old node st) → Entered q result work.new }
{
    if node.subterms == 1 {
        return open(s, sizes, work, node, st);
    }
    st
}

// The walk: what a term makes, its interface on the stack at the height on entry. The falling number is the bytes left. Both subterms
// are walked from one state, and the first of two from the same place of the code as an only one: a level then takes less of the stack.
pub fn make(s: &[u8], sizes: &[u8], work: &mut [u16], at: usize, st: State) -> Built
    requires { Asks s.now sizes.now work.old at st }
    ensures { (q : Asks s.now sizes.now work.old at st) → Leaves q result work.new }
{
    let node = records::node_at(s, at);
    if node.subterms == 0 {
        return leaf(s, sizes, work, node, st);
    }
    let mut state = enter(s, sizes, work, node, st);
    let f = make(s, sizes, work, node.next, state);
    if node.subterms == 1 {
        let l = state.top - st.top;
        return close(work, node, st.top, l, f);
    }
    state = between(s, sizes, work, node, st, f);
    let x = make(s, sizes, work, f.past, state);
    finish(s, work, node, st.top, f, x)
}
