// The records of a netlist from outside, read one after the other: a reader over the lent bytes, and the plain functions below it.
#![tactic(auto)]

ghost use Rattle.std.specs.Prelude.{◌≡◌, ◌+◌, ◌<◌, length};
ghost use Rattle.calculus.specs.Read.{byte};
ghost use Rattle.calculus.specs.Net.{point, wire_of, element, wire, pin};
ghost use Rattle.calculus.specs.NetRead.{item, two_at, uncut, known_part, item_at, item_size};
ghost use Rattle.net_reader.specs.Said.{said_record, said_front, said_step, stepped};

use answers::{Reason, Refusal};

// A record of kind 21 to 24. Its terminals are bare numbers here: the elements tell which of them are inputs and which are outputs.
#[derive(Clone, Copy, Debug, PartialEq, Eq)]
pub enum Record {
    Point(u16),
    Part(u8, u16),
    Wire(u16, u16),
    Pin(u16),
}

// A number of two bytes, low byte first.
fn two_at(s: &[u8], at: usize) -> u16
    requires { at + 1 < length s.now }
    ensures { result ≡ two_at s.now at }
{
    s[at] as u16 + 256 * (s[at + 1] as u16)
}

// A part and its first terminal; none if the part is unknown.
#[tactic(auto, unfolding(parts::specs::Table::named))]
fn part_at(s: &[u8], at: usize) -> Option<Record>
    requires { at + 3 < length s.now }
    ensures { said_front result ≡ known_part (byte s.now (at + 1)) (two_at s.now (at + 2)) }
{
    let p = s[at + 1];
    parts::part_at(p)?;
    Some(Record::Part(p, two_at(s, at + 2)))
}

// The record at an offset; none if its kind or its part is unknown, or its body is cut short.
#[tactic(auto, unfolding(calculus::specs::NetRead::item_at))]
fn record_at(s: &[u8], at: usize) -> Option<Record>
    requires { at < length s.now }
    ensures { said_front result ≡ item_at s.now at }
{
    let left = s.len() - at;
    match s[at] {
        0x21 if 3 <= left => Some(Record::Point(two_at(s, at + 1))),
        0x22 if 4 <= left => part_at(s, at),
        0x23 if 5 <= left => Some(Record::Wire(two_at(s, at + 1), two_at(s, at + 3))),
        0x24 if 3 <= left => Some(Record::Pin(two_at(s, at + 1))),
        _ => None,
    }
}

// The bytes of a record. A table of the format: no derive and no conversion of the library gives these numbers.
fn size_of(r: Record) -> usize
    ensures { result ≡ item_size (said_record r) }
{
    match r {
        Record::Point(_) => 3,
        Record::Part(_, _) => 4,
        Record::Wire(_, _) => 5,
        Record::Pin(_) => 3,
    }
}

// A record, and the offset past it, where the next one stands.
#[derive(Clone, Copy, Debug, PartialEq, Eq)]
pub struct Step {
    pub found: Record,
    pub past: usize,
}

// The step from an offset: nothing at the end, and refusal 21 where no record stands.
#[tactic(auto, unfolding(calculus::specs::NetRead::item_at))]
fn step_at(s: &[u8], at: usize) -> Result<Option<Step>, Refusal>
    ensures { said_step result ≡ stepped (item_at s.now at) at }
{
    if s.len() <= at {
        return Ok(None);
    }
    let Some(found) = record_at(s, at) else {
        return Err(Reason::BrokenRecord.at(at));
    };
    let past = at + size_of(found);
    Ok(Some(Step { found, past }))
}

// A reader: the lent bytes, and where the next record stands.
#[derive(Clone, Copy)]
pub struct Reader<'a> {
    pub bytes: &'a [u8],
    pub at: usize,
}

// A reader at an offset.
pub fn new<'a>(bytes: &'a [u8], at: usize) -> Reader<'a>
    ensures { (result.bytes ≡ bytes.entry) × (result.at ≡ at) }
{
    Reader { bytes, at }
}

// The reader hands out the record at its place, and where it stands next.
pub fn next<'a>(r: Reader<'a>) -> Result<Option<Step>, Refusal>
    ensures { said_step result ≡ stepped (item_at r.entry.bytes.now r.entry.at) r.entry.at }
{
    step_at(r.bytes, r.at)
}

// A step of the reader, for callers that go from record to record: each is called with the offset that the last one gave.
pub fn read(bytes: &[u8], at: usize) -> Result<Option<Step>, Refusal>
    ensures { said_step result ≡ stepped (item_at bytes.now at) at }
{
    next(new(bytes, at))
}
