// A sheet is read: refusals 2 to 9, the sizes of its types, and the stretch of a node.
#![tactic(auto)]

ghost use Rattle.std.specs.Prelude.{◌≡◌, length};
ghost use Rattle.calculus.specs.Terms.{is_second, opening};
ghost use Rattle.calculus.specs.Read.{read_term, read_records, edition_of, records_of, read_sheet};
ghost use Rattle.calculus.specs.Stretch.{nowhere, stretch_of, cut};
ghost use Rattle.sheet_theorems.specs.Subterms.{skip};
ghost use Rattle.records.specs.Editions.{edition_by};
ghost use Rattle.sheet.specs.Nodes.{NodesFrom};
ghost use Rattle.sheet.specs.Said.{spanned, ended_of};
ghost use Rattle.sheet.specs.Sheets.{said_reading, reading_of, said_bounds};
ghost use Rattle.sheet.specs.Place.{PartOf};

use answers::{Reason, Refusal};

mod keys;
mod term;
mod types;

const LONGEST_SHEET: usize = 16384;

const MOST_DEPTH: usize = 64;

// How many types and nodes a sheet has, where its term begins behind the opening, and the size of each type; 0 past them.
#[derive(Clone, Copy, Debug, PartialEq, Eq)]
pub struct Reading {
    pub types: usize,
    pub nodes: usize,
    pub start: usize,
    pub sizes: [u8; 256],
}

// The term, then the sheet's end.
fn read_term(
    s: &[u8],
    types: usize,
    start: usize,
    sizes: [u8; 256],
    second: bool,
) -> Result<Reading, Refusal>
    ensures { said_reading result ≡ ended_of (spanned (read_term (edition_by second) 64 s.now types start 0)) (length s.now) types start sizes }
{
    let end = term::span_at(s, start, 0, MOST_DEPTH, types, second)?;
    if end.next != s.len() {
        return Err(Reason::BytesBehind.at(end.next));
    }
    Ok(Reading {
        types,
        nodes: end.nodes,
        start,
        sizes,
    })
}

// The records behind the opening: refusals 3 to 9.
fn read_records(s: &[u8], second: bool) -> Result<Reading, Refusal>
    ensures { said_reading result ≡ reading_of (read_records (edition_by second) s.now) }
{
    let t = types::read_types(s)?;
    read_term(s, t.count, t.end, t.sizes, second)
}

// ---- the edition

const OPENING: u8 = 0x31;

// The first byte tells the edition.
pub fn is_second(s: &[u8]) -> bool
    ensures { result ≡ is_second (edition_of s.now) }
{
    if s.len() == 0 {
        return false;
    }
    s[0] == OPENING
}

// How many bytes stand before the records.
fn opening(s: &[u8]) -> usize
    ensures { result ≡ length (opening (edition_of s.now)) }
{
    if is_second(s) { 1 } else { 0 }
}

// The records, behind the opening.
pub fn records_of<'a>(s: &'a [u8]) -> &'a [u8]
    ensures { PartOf s.entry.ref_ptr (length (opening (edition_of s.now))) (records_of s.now) result.ref_ptr result.now }
{
    let from = opening(s);
    let end = s.len();
    &s[from..end]
}

// Refusals 2 to 9. Offsets count the opening.
pub fn read(s: &[u8]) -> Result<Reading, Refusal>
    ensures { said_reading result ≡ reading_of (read_sheet s.now) }
{
    if LONGEST_SHEET < s.len() {
        return Err(Reason::LongSheet.at(0));
    }
    match read_records(records_of(s), is_second(s)) {
        Ok(r) => Ok(r),
        Err(why) => Err(Refusal {
            place: opening(s) + why.place,
            ..why
        }),
    }
}

// ---- the stretch of a node

// A part of the sheet: where it begins, and its length.
#[derive(Clone, Copy, Debug, PartialEq, Eq)]
pub struct Bounds {
    pub start: usize,
    pub size: usize,
}

fn nowhere() -> Bounds
    ensures { said_bounds result ≡ nowhere }
{
    Bounds { start: 0, size: 0 }
}

// The offset past n records of nodes.
fn skip(s: &[u8], start: usize, n: usize) -> usize
    requires { NodesFrom s.now start n }
    ensures { result ≡ skip s.now n start }
{
    let mut at = start;
    for _ in 0..n {
        at = records::node_at(s, at).next;
    }
    at
}

// Where the stretch of a node begins, and its length; both 0 where the sheet is refused or the number is too large.
pub fn stretch_bounds(s: &[u8], node: usize) -> Bounds
    ensures { said_bounds result ≡ stretch_of s.now node }
{
    let Ok(r) = read(s) else {
        return nowhere();
    };
    if r.nodes <= node {
        return nowhere();
    }
    let second = is_second(s);
    let at = skip(s, opening(s) + r.start, node);
    let Ok(end) = term::span_at(s, at, 0, MOST_DEPTH, r.types, second) else {
        return nowhere();
    };
    let size = end.next - at;
    Bounds { start: at, size }
}

// The part of the caller's own sheet that holds a node and its subterms.
pub fn stretch<'a>(s: &'a [u8], node: usize) -> &'a [u8]
    ensures { PartOf s.entry.ref_ptr (stretch_of s.now node).start (cut s.now (stretch_of s.now node)) result.ref_ptr result.now }
{
    let b = stretch_bounds(s, node);
    let start = b.start;
    let end = start + b.size;
    &s[start..end]
}
