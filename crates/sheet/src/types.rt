// The type records of a sheet: refusals 3 and 5 to 8, and the sizes of the types.
ghost use Rattle.std.specs.Prelude.{◌≡◌, ◌&&◌, [], ◌+◌, ◌≤◌, ◌<◌, ltb, length, get_or};
ghost use Rattle.calculus.specs.Types.{rec_eq};
ghost use Rattle.calculus.specs.Read.{repeated};
ghost use Rattle.records.specs.Forms.{said_form, rec_of, rec_in};
ghost use Rattle.records.specs.Told.{sizes_of};
ghost use Rattle.sheet.specs.Tables.{table_in, known_below, formed_in, size_in, Before, size_of, said_checked};
ghost use Rattle.sheet.specs.Keys.{Keyed};
ghost use Rattle.sheet_theorems.specs.Records.{sharable_rec, arrow_rec};
ghost use Rattle.sheet.specs.Said.{said_types, types_of, types_in};

use crate::keys;
use answers::{Reason, Refusal};
use records::{Form, Record};

const MOST_TYPES: usize = 256;

const LARGEST_SIZE: usize = 128;

// A number is a sharable type's: a single bit's or a product's.
fn sharable(s: &[u8], t: u8) -> bool
    ensures { result ≡ sharable_rec (rec_in s.now t) }
{
    matches!(records::type_at(s, t), Form::Bit | Form::Product(_, _))
}

// A number is an arrow's.
fn arrow(s: &[u8], t: u8) -> bool
    ensures { result ≡ arrow_rec (rec_in s.now t) }
{
    matches!(
        records::type_at(s, t),
        Form::Arrow(_, _) | Form::Linear(_, _)
    )
}

fn both_below(a: u8, b: u8, count: usize) -> bool
    ensures { result ≡ (ltb a count && ltb b count) }
{
    usize::from(a) < count && usize::from(b) < count
}

// Both type numbers name earlier types.
fn known(f: Form, count: usize) -> bool
    ensures { result ≡ known_below count (said_form f) }
{
    match f {
        Form::Bit => true,
        Form::Product(a, b) | Form::Arrow(a, b) | Form::Linear(a, b) => both_below(a, b, count),
    }
}

fn both_sharable(s: &[u8], a: u8, b: u8) -> bool
    ensures { result ≡ (sharable_rec (rec_in s.now a) && sharable_rec (rec_in s.now b)) }
{
    sharable(s, a) && sharable(s, b)
}

// The table's left and right rule.
fn formed(s: &[u8], f: Form) -> bool
    ensures { result ≡ formed_in s.now (said_form f) }
{
    match f {
        Form::Bit => true,
        Form::Product(a, b) => both_sharable(s, a, b),
        Form::Arrow(a, _) => sharable(s, a),
        Form::Linear(a, _) => arrow(s, a),
    }
}

// Type t's record, above the first, has this kind, of two sides, and these type numbers. The kind is the sheet's byte, which `rec_of` takes:
// here and in `stands` bytes are compared, and no record is made of them.
fn is_record(s: &[u8], t: usize, kind: u8, left: u8, right: u8) -> bool
    requires { (0 < t) × (t < 256) × (2 ≤ kind) × (kind ≤ 4) }
    ensures { result ≡ rec_eq (rec_in s.now t) (rec_of kind left right) }
{
    let at = 3 * t - 2;
    if s.len() < at + 3 {
        return false;
    }
    if s[at + 1] != left {
        return false;
    }
    if s[at + 2] != right {
        return false;
    }
    s[at] == kind
}

// One of the earlier records has this kind, of two sides, and these type numbers. The first is the single bit's.
fn stands(s: &[u8], count: usize, kind: u8, left: u8, right: u8) -> bool
    requires { (count ≤ 256) × (2 ≤ kind) × (kind ≤ 4) }
    ensures { result ≡ repeated (table_in s.now count) (rec_of kind left right) }
{
    for t in 1..count {
        if is_record(s, t, kind, left, right) {
            return true;
        }
    }
    false
}

// One of the earlier records is the same.
fn repeats(s: &[u8], count: usize, f: Form) -> bool
    requires { count ≤ 256 }
    ensures { result ≡ repeated (table_in s.now count) (said_form f) }
{
    match f {
        Form::Bit => 0 < count,
        Form::Product(a, b) => stands(s, count, 0x02, a, b),
        Form::Arrow(a, b) => stands(s, count, 0x03, a, b),
        Form::Linear(a, b) => stands(s, count, 0x04, a, b),
    }
}

// The same, by the keys of the earlier records: where none of them has this one's, none is the same. The array has room for all types, and the
// count that stands beside it is that of the records too.
fn repeats_by(s: &[u8], keys: &[u16; 256], count: usize, f: Form) -> bool
    requires { (count ≤ 256) × Keyed s.now count keys.now }
    ensures { result ≡ repeated (table_in s.now count) (said_form f) }
{
    if keys::among(keys, count, keys::key_of(f)) {
        return repeats(s, count, f);
    }
    false
}

fn sum(sizes: &[u8], a: u8, b: u8) -> usize
    requires { length sizes.now ≡ 256 }
    ensures { result ≡ get_or sizes.now a 0 + get_or sizes.now b 0 }
{
    usize::from(sizes[usize::from(a)]) + usize::from(sizes[usize::from(b)])
}

// The size of a record's type, from the sizes of earlier types.
fn size_of(sizes: &[u8], f: Form) -> usize
    requires { length sizes.now ≡ 256 }
    ensures { result ≡ size_in sizes.now (said_form f) }
{
    match f {
        Form::Bit => 1,
        Form::Product(a, b) | Form::Arrow(a, b) | Form::Linear(a, b) => sum(sizes, a, b),
    }
}

// A type record against those before it: its size, or refusal 5 to 8. Sheet, count and record go on to `repeats_by` and from there to `repeats`,
// and nowhere else: a struct would be made for these two calls alone.
fn check_type(
    s: &[u8],
    at: usize,
    count: usize,
    sizes: &[u8],
    keys: &[u16; 256],
    f: Form,
) -> Result<u8, Refusal>
    requires { (Before s.now count sizes.now) × Keyed s.now count keys.now }
    ensures { said_checked result ≡ size_of (table_in s.now count) (said_form f) at }
{
    if MOST_TYPES <= count {
        return Err(Reason::PastLimit.at(at));
    }
    let numbers = known(f, count);
    let form = formed(s, f);
    if !numbers {
        return Err(Reason::UnknownType.at(at));
    }
    if !form {
        return Err(Reason::WrongSort.at(at));
    }
    if repeats_by(s, keys, count, f) {
        return Err(Reason::RepeatedType.at(at));
    }
    let size = size_of(sizes, f);
    if LARGEST_SIZE < size {
        return Err(Reason::PastLimit.at(at));
    }
    Ok(size as u8)
}

// The type records: their number, the offset past them, and the size of each type; 0 past them. The count stands beside the array, since
// there is no heap, and a whole array goes on to `Reading`, whose callers take it by number of type.
#[derive(Clone, Copy, Debug, PartialEq, Eq)]
pub struct Types {
    pub count: usize,
    pub end: usize,
    pub sizes: [u8; 256],
}

pub fn no_sizes() -> [u8; 256]
    ensures { result ≡ sizes_of [] }
{
    [0u8; 256]
}

// A node's record ends the types. Where no record can be read its refusal is the sheet's, since one is due there in any case.
pub fn read_types(s: &[u8]) -> Result<Types, Refusal>
    ensures { said_types result ≡ types_of (types_in s.now) }
{
    let mut sizes = no_sizes();
    let mut keys = keys::no_keys();
    let mut at: usize = 0;
    let mut count: usize = 0;
    while let Record::Type(f, next) = records::record_at(s, at, false)? {
        sizes[count] = check_type(s, at, count, &sizes, &keys, f)?;
        keys[count] = keys::key_of(f);
        count = count + 1;
        at = next;
    }
    Ok(Types {
        count,
        end: at,
        sizes,
    })
}
