// Types by their numbers, and the interfaces of binders and parts, as codes.
ghost use Rattle.std.specs.Prelude.{◌≡◌, false, map, ◌+◌, ◌*◌, ◌≤◌, ◌<◌, length, get_or, replicate};
ghost use Rattle.std.proofs.lemmas.List.Edits.{sets};
ghost use Rattle.calculus.specs.Types.{tree};
ghost use Rattle.calculus.specs.Terms.{part_at};
ghost use Rattle.calculus.specs.Net.{turns, part_side};
ghost use Rattle.memory.specs.Map.{code};
ghost use Rattle.wiring.specs.Sides.{KnownType, Arrow, StillDue, point_end, face};

use netlist::{In, Out, Terminal};
use records::Sided;

pub fn size_of(sizes: &[u8], t: u8) -> usize
    requires { length sizes.now ≡ 256 }
    ensures { result ≡ get_or sizes.now t 0 }
{
    records::wide(sizes[records::wide(t)])
}

// ---- interfaces

// One terminal of the point whose input is n: its input, or its output.
fn end_of(n: usize, input: bool) -> u16
    requires { n + 1 < 8192 }
    ensures { result ≡ point_end n input }
{
    let first = n as u16;
    let second = (n + 1) as u16;
    if input {
        netlist::code_of(Terminal::Input(In(first)))
    } else {
        netlist::code_of(Terminal::Output(Out(second)))
    }
}

// An interface of l bits of which none is turned, as of a sharable type, whose points start at terminal n.
fn unturned(work: &mut [u16], to: usize, l: usize, n: usize, output: bool)
    requires { (to + l ≤ length work.old) × (n + 2 * l ≤ 8192) }
    ensures { work.new ≡ sets work.old to (face output (replicate l false) n) }
{
    for j in 0..l {
        work[to + j] = end_of(n + 2 * j, !output);
    }
}

// A side of an arrow, or the whole, whose interface is still to be made at `to`: its type, where its points start, and which interface.
#[derive(Clone, Copy, Debug, PartialEq, Eq)]
pub struct Due {
    pub ty: u8,
    pub to: usize,
    pub n: usize,
    pub output: bool,
}

// An interface of a binder of type t, whose points start at terminal n: the variable's output interface, or its input interface. Of an
// arrow the smaller side is made by a call and the larger one is gone on with, so that calls are at most seven deep: a type may have
// 127 arrows one in the other, and each call takes stack. The falling number is the type's.
#[cycle(arrow_interface)]
pub fn interface(s: &[u8], sizes: &[u8], work: &mut [u16], to: usize, t: u8, n: usize, output: bool)
    requires { (KnownType s.now sizes.now t) × (to + get_or sizes.now t 0 ≤ length work.old) × (n + 2 * get_or sizes.now t 0 ≤ 8192) }
    ensures { (q : KnownType s.now sizes.now t)
        → work.new ≡ sets work.old to (face output (turns false (tree q.table t)) n) }
{
    let mut due = Due {
        ty: t,
        to,
        n,
        output,
    };
    let mut x = records::sides_of(s, t);
    while x.kind > 2 {
        due = arrow(s, sizes, work, x, due);
        x = records::sides_of(s, due.ty);
    }
    unturned(work, due.to, size_of(sizes, due.ty), due.n, due.output);
}

// The smaller side of an arrow, made, and the larger one, still due: an arrow turns the bits of its left side, so that the other
// interface of this side stands there, before the right's.
#[cycle(arrow_interface)]
fn arrow(s: &[u8], sizes: &[u8], work: &mut [u16], x: Sided, due: Due) -> Due
    requires { Arrow s.now sizes.now x (length work.old) due.to due.n }
    ensures { (q : Arrow s.now sizes.now x (length work.old) due.to due.n)
        → StillDue q due result work.old work.new }
{
    let Due { to, n, output, .. } = due;
    let l = size_of(sizes, x.left);
    if l <= size_of(sizes, x.right) {
        interface(s, sizes, work, to, x.left, n, !output);
        return Due {
            ty: x.right,
            to: to + l,
            n: n + 2 * l,
            ..due
        };
    }
    interface(s, sizes, work, to + l, x.right, n + 2 * l, output);
    Due {
        ty: x.left,
        output: !output,
        ..due
    }
}

// How many terminals a part has: its inputs and its outputs.
pub fn terminals_of(number: u8) -> usize
    ensures { result ≡ (part_at number).inputs + 1 }
{
    let part = parts::part_of(number as u16);
    part.inputs as usize + part.outputs as usize
}

// The interface of a part whose first terminal is n: k inputs, then the output.
pub fn terminals(work: &mut [u16], to: usize, k: usize, n: usize)
    requires { (to + k < length work.old) × (n + k < 8192) }
    ensures { work.new ≡ sets work.old to (map code (part_side k n)) }
{
    for i in 0..k {
        work[to + i] = netlist::code_of(Terminal::Input(In((n + i) as u16)));
    }
    work[to + k] = netlist::code_of(Terminal::Output(Out((n + k) as u16)));
}
