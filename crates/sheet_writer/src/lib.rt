// The sheet that stands in the working memory: its length, and its bytes and places, written; refusals 17 and 37.
#![tactic(auto)]

ghost use Rattle.std.specs.Prelude.{◌≡◌, cond, ◌+◌, ◌*◌, ◌≤◌, ◌<◌, eqb, length, get_or};
ghost use Rattle.std.proofs.lemmas.List.Edits.{sets};
ghost use Rattle.making_memory.specs.Map.{nodes_at, making_size};
ghost use Rattle.made_types.specs.Held.{kind_in};
ghost use Rattle.sheet_writer.specs.Bytes.{opening_in, type_bytes, types_bytes, TypeLow, TypesFit, node_kind_in, node_place_in, body_bytes, subterm_count, node_record, RecordLow};
ghost use Rattle.sheet_writer.specs.Wrote.{TermStands, Measures, TermFits, TermWrote, SheetStands, SheetWrote};

use answers::{Reason, Refusal};
use making_memory::{NODES, SECOND, TYPE_COUNT, TYPES};

// Bytes and nodes: how many, or where the next come.
#[derive(Clone, Copy, Debug, PartialEq, Eq)]
pub struct Span {
    pub bytes: usize,
    pub nodes: usize,
}

// ---- types

// The bytes of the first types.
fn types_length(work: &[u16], n: usize) -> usize
    requires { (making_size ≤ length work.now) × (n ≤ 256) }
    ensures { result ≡ length (types_bytes work.now n) }
{
    let mut total: usize = 0;
    for t in 0..n {
        if work[TYPES + 4 * t] == 1 {
            total = total + 1;
        } else {
            total = total + 3;
        }
    }
    total
}

// A type's record at an offset. Behind it. `write_type`, `write_record` and `write_term` take the memory, the output and the offset one by one: the
// memory is read, the output is written, and the offset is another at each call, so that a struct of them would be made anew for each record.
fn write_type(work: &[u16], out: &mut [u8], t: usize, at: usize) -> usize
    requires { (making_size ≤ length work.now) × ((t < 256) × ((TypeLow work.now t) × (at + length (type_bytes work.now t) ≤ length out.old))) }
    ensures { (result ≡ at + length (type_bytes work.now t)) × (out.new ≡ sets out.old at (type_bytes work.now t)) }
{
    let kind = work[TYPES + 4 * t];
    out[at] = kind as u8;
    if kind == 1 {
        return at + 1;
    }
    out[at + 1] = work[TYPES + 4 * t + 1] as u8;
    out[at + 2] = work[TYPES + 4 * t + 2] as u8;
    at + 3
}

// The records of the first types from an offset on. Behind them.
fn write_types(work: &[u16], out: &mut [u8], n: usize, from: usize) -> usize
    requires { TypesFit work.now n from (length out.old) }
    ensures { (result ≡ from + length (types_bytes work.now n)) × (out.new ≡ sets out.old from (types_bytes work.now n)) }
{
    let mut at = from;
    for t in 0..n {
        at = write_type(work, out, t, at);
    }
    at
}

// ---- nodes

// The kind is the memory's number here and in `subterms`, not an enum: both say of every number what the definitions `body_bytes` and
// `subterm_count` do, and `TermStands` asks nothing of the kinds of other nodes.
fn body_bytes(kind: u16) -> usize
    ensures { result ≡ body_bytes kind }
{
    match kind {
        0x1A => 2,
        0x14 | 0x16 | 0x18 | 0x1B => 0,
        _ => 1,
    }
}

fn subterms(kind: u16) -> usize
    ensures { result ≡ subterm_count kind }
{
    match kind {
        0x11 | 0x12 | 0x1A => 0,
        0x13 | 0x15 | 0x19 => 1,
        _ => 2,
    }
}

// One of a node's numbers.
fn number_at(work: &[u16], k: usize, j: usize) -> usize
    requires { (making_size ≤ length work.now) × ((k < 2048) × (j < 5)) }
    ensures { result ≡ get_or work.now (nodes_at + 5 * k + j) 0 }
{
    work[NODES + 5 * k + j] as usize
}

fn kind_at(work: &[u16], k: usize) -> u16
    requires { (making_size ≤ length work.now) × (k < 2048) }
    ensures { result ≡ node_kind_in work.now k }
{
    work[NODES + 5 * k]
}

fn place_at(work: &[u16], k: usize) -> u16
    requires { (making_size ≤ length work.now) × (k < 2048) }
    ensures { result ≡ node_place_in work.now k }
{
    work[NODES + 5 * k + 4]
}

// A node's record at an offset, without its subterms'. Behind it.
fn write_record(work: &[u16], out: &mut [u8], k: usize, at: usize) -> usize
    requires { (making_size ≤ length work.now) × ((k < 2048) × ((RecordLow work.now k) × (at + length (node_record work.now k) ≤ length out.old))) }
    ensures { (result ≡ at + length (node_record work.now k)) × (out.new ≡ sets out.old at (node_record work.now k)) }
{
    let kind = work[NODES + 5 * k];
    let n = body_bytes(kind);
    out[at] = kind as u8;
    if n == 0 {
        return at + 1;
    }
    out[at + 1] = work[NODES + 5 * k + 1] as u8;
    if n == 1 {
        return at + 2;
    }
    out[at + 2] = work[NODES + 5 * k + 2] as u8;
    at + 3
}

// The bytes and the nodes of the term of node k. Its subterms have smaller numbers.
fn measure(work: &[u16], k: usize) -> Span
    requires { TermStands work.now k }
    ensures { Measures work.now k result }
{
    let kind = kind_at(work, k);
    let own = body_bytes(kind) + 1;
    let n = subterms(kind);
    if n == 0 {
        return Span {
            bytes: own,
            nodes: 1,
        };
    }
    let left = number_at(work, k, 2);
    let a = measure(work, left);
    if n == 1 {
        return Span {
            bytes: own + a.bytes,
            nodes: 1 + a.nodes,
        };
    }
    let right = number_at(work, k, 3);
    let b = measure(work, right);
    Span {
        bytes: own + a.bytes + b.bytes,
        nodes: 1 + a.nodes + b.nodes,
    }
}

// The term of node k from an offset on, and its places behind so many. Behind them.
fn write_term(
    work: &[u16],
    out: &mut [u8],
    places: &mut [u16],
    k: usize,
    at: usize,
    count: usize,
) -> Span
    requires { TermFits work.now k at count (length out.old) (length places.old) }
    ensures { TermWrote work.now k at count out.old places.old result out.new places.new }
{
    let kind = kind_at(work, k);
    let n = subterms(kind);
    places[count] = place_at(work, k);
    let next = write_record(work, out, k, at);
    if n == 0 {
        return Span {
            bytes: next,
            nodes: count + 1,
        };
    }
    let left = number_at(work, k, 2);
    let a = write_term(work, out, places, left, next, count + 1);
    if n == 1 {
        return a;
    }
    let right = number_at(work, k, 3);
    write_term(work, out, places, right, a.bytes, a.nodes)
}

// ---- the sheet

// The opening of the second edition. Behind it.
fn write_opening(work: &[u16], out: &mut [u8]) -> usize
    requires { (making_size ≤ length work.now) × (length (opening_in work.now) ≤ length out.old) }
    ensures { (result ≡ length (opening_in work.now)) × (out.new ≡ sets out.old 0 (opening_in work.now)) }
{
    if work[SECOND] == 1 {
        out[0] = 0x31;
        return 1;
    }
    0
}

fn opening_length(work: &[u16]) -> usize
    requires { making_size ≤ length work.now }
    ensures { result ≡ length (opening_in work.now) }
{
    if work[SECOND] == 1 {
        return 1;
    }
    0
}

// The sheet that stands in the working memory, and the places of its nodes; how many bytes it has. Or 17 with the bytes needed, then 37 with the nodes.
pub fn write(
    work: &[u16],
    out: &mut [u8],
    places: &mut [u16],
    root: usize,
) -> Result<usize, Refusal>
    requires { SheetStands work.now root }
    ensures { SheetWrote work.now root out.old places.old result out.new places.new }
{
    let types = work[TYPE_COUNT] as usize;
    let head = opening_length(work) + types_length(work, types);
    let m = measure(work, root);
    let bytes = head + m.bytes;
    if out.len() < bytes {
        return Err(Reason::ShortOutput.at(bytes));
    }
    let nodes = m.nodes;
    if places.len() < nodes {
        return Err(Reason::ShortPlaces.at(nodes));
    }
    let from = write_opening(work, out);
    let at = write_types(work, out, types, from);
    write_term(work, out, places, root, at, 0);
    Ok(bytes)
}
