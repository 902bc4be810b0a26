// The stages that every call begins with, from a sheet's bytes to its full netlist in the working memory, and the clearing that every
// call ends with.
#![tactic(auto)]

ghost use Rattle.std.specs.Prelude.{◌≡◌, ◌≤◌, min, length};
ghost use Rattle.calculus.specs.Answer.{refused};
ghost use Rattle.calculus.specs.Translate.{work_of};
ghost use Rattle.translator.specs.Stages.{ReadStage, WellTyped};
ghost use Rattle.translator.specs.Made.{MakeLeaves};
ghost use Rattle.translator.specs.Said.{said_answer};
ghost use Rattle.answers.specs.Word.{packed};

use answers::{Reason, Refusal};
use wiring::Counts;

// How many elements, wires and pins of the netlist stand in the working memory, and the number of the root's type.
#[derive(Clone, Copy)]
pub struct Made {
    pub counts: Counts,
    pub root: u8,
}

// The terminals are counted before anything is made: 16.
fn counted(
    records: &[u8],
    sizes: &[u8],
    work: &mut [u16],
    nodes: usize,
    start: usize,
    root: u8,
    plain: bool,
) -> Result<Made, Refusal>
    requires { (32768 ≤ length work.old) × (WellTyped records.now sizes.now start nodes root) }
    ensures { (q : WellTyped records.now sizes.now start nodes root) → MakeLeaves plain result q.read.whole work.old work.new }
{
    if 8192 < wiring::count(records, sizes, start, nodes) {
        return Err(Reason::ManyTerminals.at(0));
    }
    let counts = wiring::make_net(records, sizes, work, start);
    if plain {
        return Ok(Made { counts, root });
    }
    makers::name(records, sizes, work, start, nodes);
    Ok(Made { counts, root })
}

// The typing walk: 10 to 15.
fn checked(
    records: &[u8],
    sizes: &[u8],
    work: &mut [u16],
    types: usize,
    nodes: usize,
    start: usize,
    second: bool,
    plain: bool,
) -> Result<Made, Refusal>
    requires { (32768 ≤ length work.old) × (ReadStage records.now sizes.now types second start nodes) }
    ensures { (q : ReadStage records.now sizes.now types second start nodes) → MakeLeaves plain result q.read.whole work.old work.new }
{
    let root = typing::check(records, start, types, second)?;
    counted(records, sizes, work, nodes, start, root, plain)
}

// The full netlist of a sheet in the working memory, with the nodes that made its elements where plain kinds are not wished, or refusal
// 1 to 16: here the memory, 1, and the reader, 2 to 9.
pub fn make(sheet: &[u8], work: &mut [u16], plain: bool) -> Result<Made, Refusal>
    ensures { MakeLeaves plain result sheet.now work.old work.new }
{
    if work.len() < 32768 {
        return Err(Reason::LittleMemory.at(0));
    }
    let r = sheet::read(sheet)?;
    let second = sheet::is_second(sheet);
    checked(
        sheet::records_of(sheet),
        &r.sizes,
        work,
        r.types,
        r.nodes,
        r.start,
        second,
        plain,
    )
}

// The working memory as every call leaves it: the first 32,768 numbers 0; where it has fewer, as it was.
pub fn clear(work: &mut [u16])
    ensures { work.new ≡ work_of work.old }
{
    if 32768 <= work.len() {
        memory::clear(work);
    }
}

// A number, or the largest one that can be shown.
fn shown(n: u64, most: u64) -> u64
    ensures { result ≡ min n most }
{
    if n < most {
        return n;
    }
    most
}

// A refusal as one number, from its own number, which may be any byte, its place and the two types: the bits are those of `word`.
pub fn refusal_word(number: u8, place: usize, wanted: u16, found: u8) -> u64
    ensures { result ≡ packed (refused (record { number = number; place = place; wanted = wanted; found = found })) }
{
    let shown_place = shown(place as u64, 4294967295);
    let shown_wanted = shown(wanted as u64, 4095);
    let shown_found = shown(found as u64, 4095);
    let first = number as u64 * 4294967296 + shown_place;
    first + (shown_wanted * 1099511627776 + shown_found * 4503599627370496)
}

// What a call that writes answers, as one number: the number of bytes written, or a refusal. Bits 0 to 31 hold the number of bytes or the
// place, 32 to 39 the refusal's number, 0 for none, 40 to 51 the type number wanted and 52 to 63 the one found.
pub fn word(answer: Result<usize, Refusal>) -> u64
    ensures { result ≡ packed (said_answer answer) }
{
    match answer {
        Ok(n) => shown(n as u64, 4294967295),
        Err(r) => refusal_word(r.reason.number(), r.place, r.wanted, r.found),
    }
}
