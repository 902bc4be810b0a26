// The records of the sheet, each from its offset on.
ghost use Rattle.std.specs.Prelude.{◌≡◌, ◌∷◌, [], ◌+◌, ◌-◌, ◌*◌, ◌≤◌, ◌<◌, length, get_or};
ghost use Rattle.std.proofs.lemmas.List.Edits.{sets};
ghost use Rattle.calculus.specs.Net.{point};
ghost use Rattle.calculus.specs.Write.{table_bytes, term_bytes};
ghost use Rattle.back_calculus.specs.Back.{undriven as undrivenInput, output, sources, undrivens, gates as gatesOf, tuple as tuple_of, base, back_table, binder_number, tuple_term, back_sheet};
ghost use Rattle.back.specs.Gates.{net_here};
ghost use Rattle.back.specs.Rows.{rows_up_to, product_row, arrow_row, function_row, projection_row, application_row, pair_row, head_row, source_rows, gate_row, gate_of, arrow_length, sheet_length};
ghost use Rattle.back.specs.Room.{SourceRoom, SourcesRoom, PartRoom, PartsRoom, SheetRoom};

use crate::gates;
use crate::gates::Parts;

// A netlist, and what is known of it: its parts, and how many undriven inputs it has.
#[derive(Clone, Copy, Debug, PartialEq, Eq)]
pub struct Layout<'a> {
    pub net: &'a [u8],
    pub parts: Parts,
    pub undriven: usize,
}

// Past what was written, the undriven inputs so far, and where the next part stands in the netlist.
#[derive(Clone, Copy, Debug, PartialEq, Eq)]
struct Next {
    at: usize,
    before: usize,
    gate: usize,
}

// The bytes of the arrows. One part has at most two undriven inputs, and their arrows are among the first three types.
fn arrow_length(parts: usize, undriven: usize) -> usize
    requires { undriven ≤ 24 }
    ensures { result ≡ arrow_length parts undriven }
{
    if parts == 1 { 0 } else { 3 * undriven }
}

// The length of the sheet of so many parts, with so many inputs, of which some are undriven.
pub fn length(parts: usize, undriven: usize, inputs: usize) -> usize
    requires { (parts ≤ 16) × (undriven ≤ 24) × (inputs ≤ 32) }
    ensures { result ≡ sheet_length parts undriven inputs }
{
    11 * parts + 1 + arrow_length(parts, undriven) + 2 * undriven + 3 * inputs
}

// A row, from an offset on.
fn put(out: &mut [u8], at: usize, row: &[u8])
    requires { at + length row.now ≤ length out.old }
    ensures { out.new ≡ sets out.old at row.now }
{
    out[at..at + row.len()].copy_from_slice(row);
}

// The type number of so many bits and one as pairs nested to the right.
fn tuple(q: usize) -> usize
    requires { q ≤ 16 }
    ensures { result ≡ tuple_of q }
{
    if q == 0 { 0 } else { q + 2 }
}

// 01, 03 00 00, 03 00 01.
fn put_base(out: &mut [u8])
    requires { 7 ≤ length out.old }
    ensures { out.new ≡ sets out.old 0 (table_bytes base) }
{
    put(out, 0, &[0x01, 0x03, 0x00, 0x00, 0x03, 0x00, 0x01]);
}

// The loops of this function and of the three like it stay apart: one function that takes the row as a closure would need a contract for
// each closure, and be no plainer.
//
// The products, smallest first.
fn put_products(out: &mut [u8], from: usize, q: usize)
    requires { (q ≤ 16) × (from + 3 * q ≤ length out.old) }
    ensures { out.new ≡ sets out.old from (rows_up_to product_row q) }
{
    for j in 0..q {
        put(out, from + 3 * j, &[0x02, 0x00, tuple(j) as u8]);
    }
}

// Arrows from the bit, the first one to type number t.
fn put_arrows(out: &mut [u8], from: usize, t: usize, k: usize)
    requires { (t + k ≤ 255) × (from + 3 * k ≤ length out.old) }
    ensures { out.new ≡ sets out.old from (rows_up_to (arrow_row t) k) }
{
    for j in 0..k {
        put(out, from + 3 * j, &[0x03, 0x00, (t + j) as u8]);
    }
}

// The type records; where the term begins. One part has at most two undriven inputs, and their arrows are there.
fn put_types(out: &mut [u8], parts: usize, undriven: usize) -> usize
    requires { (1 ≤ parts) × (parts ≤ 16) × (undriven ≤ 24) × (length (table_bytes (back_table (parts - 1) undriven)) ≤ length out.old) }
    ensures { (result ≡ length (table_bytes (back_table (parts - 1) undriven)))
        × (out.new ≡ sets out.old 0 (table_bytes (back_table (parts - 1) undriven))) }
{
    put_base(out);
    if parts == 1 {
        return 7;
    }
    put_products(out, 7, parts - 1);
    let at = 4 + 3 * parts;
    put_arrows(out, at, parts + 1, undriven);
    at + 3 * undriven
}

// A function for each undriven input, the lowest outermost; the outermost has the type number `top`.
fn put_functions(out: &mut [u8], from: usize, top: usize, k: usize)
    requires { (k ≤ top) × (top ≤ 255) × (from + 2 * k ≤ length out.old) }
    ensures { out.new ≡ sets out.old from (rows_up_to (function_row top) k) }
{
    for j in 0..k {
        put(out, from + 2 * j, &[0x13, (top - j) as u8]);
    }
}

// The projections, each of the nearest variable.
fn put_projections(out: &mut [u8], from: usize, q: usize)
    requires { from + 3 * q ≤ length out.old }
    ensures { out.new ≡ sets out.old from (rows_up_to projection_row q) }
{
    for j in 0..q {
        put(out, from + 3 * j, &[0x18, 0x11, 0x00]);
    }
}

// The variable of an undriven input with so many before it, or of a part.
fn open_binder(parts: usize, undriven: usize, before: usize) -> u8
    requires { (1 ≤ parts) × (parts ≤ 16) × (undriven ≤ 24) × (before ≤ undriven) }
    ensures { result ≡ binder_number undriven (parts - 1) (undrivenInput before) }
{
    (undriven + 2 * (parts - 1) - before) as u8
}

fn output_binder(parts: usize, r: usize) -> u8
    requires { (1 ≤ parts) × (parts ≤ 16) × (r < 65536) }
    ensures { result ≡ 2 * (parts - 1 - r) - 1 }
{
    if r + 1 < parts {
        (2 * (parts - 1 - r) - 1) as u8
    } else {
        0
    }
}

// The variable that drives an input; the undriven inputs then.
fn put_source(out: &mut [u8], at: usize, i: usize, layout: Layout, before: usize) -> usize
    requires { SourceRoom layout.net.now (length out.old) at layout.parts.count layout.parts.wires layout.undriven before }
    ensures { (result ≡ before + undrivens (sources (net_here layout.entry.net.now) 1 i before))
        × (out.new ≡ sets out.old at (source_rows layout.entry.undriven (layout.entry.parts.count - 1) (sources (net_here layout.entry.net.now) 1 i before))) }
{
    let Some(d) = gates::driver(layout.net, layout.parts.wires, i) else {
        let binder = open_binder(layout.parts.count, layout.undriven, before);
        put(out, at, &[0x11, binder]);
        return before + 1;
    };
    let r = gates::part_before(layout.net, layout.parts.count, d as usize);
    put(out, at, &[0x11, output_binder(layout.parts.count, r)]);
    before
}

// Those of at most two inputs.
fn put_sources(
    out: &mut [u8],
    at: usize,
    first: usize,
    inputs: usize,
    layout: Layout,
    before: usize,
) -> usize
    requires { SourcesRoom layout.net.now (length out.old) at first inputs layout.parts.count layout.parts.wires layout.undriven before }
    ensures { (result ≡ before + undrivens (sources (net_here layout.entry.net.now) inputs first before))
        × (out.new ≡ sets out.old at (source_rows layout.entry.undriven (layout.entry.parts.count - 1) (sources (net_here layout.entry.net.now) inputs first before))) }
{
    if inputs == 0 {
        return before;
    }
    let one = put_source(out, at, first, layout, before);
    if inputs == 1 {
        return one;
    }
    put_source(out, at + 2, first + 1, layout, one)
}

// A pair, where more than one part is left; past it.
fn put_pair(out: &mut [u8], at: usize, left: usize) -> usize
    requires { (left ≤ 16) × (at + 2 ≤ length out.old) }
    ensures { (result ≡ at + length (pair_row left)) × (out.new ≡ sets out.old at (pair_row left)) }
{
    if left < 2 {
        return at;
    }
    put(out, at, &[0x17, tuple(left - 1) as u8]);
    at + 2
}

// As many applications as a part has inputs, and its constant; past them.
fn put_head(out: &mut [u8], at: usize, part: u8, inputs: usize) -> usize
    requires { (inputs ≤ 2) × (at + inputs + 3 ≤ length out.old) }
    ensures { (result ≡ at + inputs + 3) × (out.new ≡ sets out.old at (head_row part inputs)) }
{
    out[at..at + inputs].fill(0x14);
    put(out, at + inputs, &[0x1A, part, inputs as u8]);
    at + inputs + 3
}

// The part at a place, applied to its drivers: its record stands at `here.gate`, and it is written from `here.at` on.
fn put_part(out: &mut [u8], here: Next, r: usize, layout: Layout) -> Next
    requires { PartRoom layout.net.now (length out.old) here.at here.gate r layout.parts.count layout.parts.wires layout.undriven here.before }
    ensures { (result.at ≡ here.at + length (gate_row layout.entry.undriven (layout.entry.parts.count - 1) (layout.entry.parts.count - r) (gate_of (net_here layout.entry.net.now) (get_or (net_here layout.entry.net.now).elements r (point 0)) here.before)))
        × (result.before ≡ here.before + undrivens (gate_of (net_here layout.entry.net.now) (get_or (net_here layout.entry.net.now).elements r (point 0)) here.before).ins)
        × (result.gate ≡ here.gate + 4)
        × (out.new ≡ sets out.old here.at (gate_row layout.entry.undriven (layout.entry.parts.count - 1) (layout.entry.parts.count - r) (gate_of (net_here layout.entry.net.now) (get_or (net_here layout.entry.net.now).elements r (point 0)) here.before))) }
{
    let g = gates::gate_at(layout.net, here.gate);
    let inputs = netlist::inputs_of(g.part) as usize;
    let head = put_pair(out, here.at, layout.parts.count - r);
    let mid = put_head(out, head, g.part, inputs);
    let then = put_sources(out, mid, g.first as usize, inputs, layout, here.before);
    let end = mid + 2 * inputs;
    Next {
        at: end,
        before: then,
        gate: g.past,
    }
}

// All parts, as pairs nested to the right.
fn put_parts(out: &mut [u8], from: usize, layout: Layout)
    requires { PartsRoom layout.net.now (length out.old) from layout.parts.count layout.parts.wires layout.undriven }
    ensures { out.new ≡ sets out.old from (term_bytes (tuple_term layout.entry.undriven (layout.entry.parts.count - 1) (gatesOf (net_here layout.entry.net.now)))) }
{
    let mut next = Next {
        at: from,
        before: 0,
        gate: 0,
    };
    for r in 0..layout.parts.count {
        next = put_part(out, next, r, layout);
    }
}

// The whole sheet, from the start of the output.
pub fn sheet(out: &mut [u8], layout: Layout)
    requires { SheetRoom layout.net.now (length out.old) layout.parts.count layout.parts.wires layout.undriven }
    ensures { out.new ≡ sets out.old 0 (back_sheet (net_here layout.entry.net.now)) }
{
    let q = layout.parts.count - 1;
    let whole = tuple(q);
    let functions = put_types(out, layout.parts.count, layout.undriven);
    put_functions(out, functions, whole + layout.undriven, layout.undriven);
    let at = functions + 2 * layout.undriven;
    put(out, at, &[0x19, whole as u8]);
    put_projections(out, at + 2, q);
    put_parts(out, at + 2 + 3 * q, layout);
}
