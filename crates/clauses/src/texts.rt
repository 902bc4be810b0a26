// The pass over a text whose words are good: its edition, its clauses, and refusals 32, 34 and 36.
ghost use Rattle.std.specs.Prelude.{◌≡◌, true, false, ◌+◌, ◌≤◌, length};
ghost use Rattle.notation_calculus.specs.Grammar.{clause_at};
ghost use Rattle.words.specs.Lexed.{from, Lexed};
ghost use Rattle.grammar.specs.Ends.{Ends, rest_of};
ghost use Rattle.making_memory.specs.Map.{making_size};
ghost use Rattle.clauses.specs.Rows.{body_at};
ghost use Rattle.clauses.specs.Texts.{clause_item, item_of, TableHeld, Proceeds, ProceedsIn, defines_by, Defined, ItemsRead, says_second, TextRead};

use crate::{follows, rows};
use answers::Refusal;
use grammar::items;

const TYPE: u8 = 5;

const EDITION: u8 = 6;

const TABLE: u8 = 7;

// The place of a text's end, the offset of its first line `table` (its end if it has none), and how many clauses stand above that.
#[derive(Clone, Copy)]
pub struct Whole {
    pub place: usize,
    pub items: usize,
    pub seen: usize,
}

// Text and memory are two parameters in this crate's functions: the text is only read, and a struct with both would be lent to be written, so that each
// clause would also have to say that the text is as it was. An offset with a sort is no struct either: `clause_end`, `definition` and `rows::row_of` begin a
// clause there, where `rows::key_of`, `follows::namesake` and `meant::up_to` have the name's place.
// Where a definition of a sort ends.
fn clause_end(text: &[u8], at: usize, sort: bool) -> Result<usize, Refusal>
    requires { Lexed text.now at }
    ensures { Ends text.now (length (from text.now at)) (rest_of (clause_at (body_at sort) (from text.now at))) result }
{
    if sort {
        return items::type_clause_end(text, at);
    }
    items::term_clause_end(text, at)
}

// A definition: 32 and 34 of the grammar, then 34 and 36 at its name.
#[inline(always)]
fn definition(text: &[u8], work: &mut [u16], at: usize, sort: bool) -> Result<usize, Refusal>
    requires { (Lexed text.now at) × (TableHeld text.now work.old) }
    ensures { Proceeds text.now (length (from text.now at)) (clause_item sort (from text.now at)) work.old work.new result }
{
    let e = clause_end(text, at, sort)?;
    let d = rows::row_of(text, at, sort, e);
    if let Err(reason) = follows::with_row(text, work, d) {
        return Err(reason.at(d.name));
    }
    Ok(e)
}

fn item(text: &[u8], work: &mut [u16], at: usize) -> Result<usize, Refusal>
    requires { (Lexed text.now at) × (TableHeld text.now work.old) }
    ensures { Proceeds text.now (length (from text.now at)) (item_of (from text.now at)) work.old work.new result }
{
    let w = words::word_at(text, at);
    if w.kind == TABLE {
        return items::item_end(text, at);
    }
    if w.kind == TYPE {
        return definition(text, work, w.end, true);
    }
    definition(text, work, at, false)
}

// A definition begins with a word. Its kind stays a number: `defines_by` is defined over the numbers that `token_code` gives.
fn defines(kind: u8) -> bool
    ensures { result ≡ defines_by kind }
{
    if kind == 0 {
        return false;
    }
    kind != TABLE
}

// The definitions from an offset on, up to the first line `table`. The lines are worked out later, and what stands above them is not read again
// for that.
fn definitions(text: &[u8], work: &mut [u16], start: usize) -> Result<usize, Refusal>
    requires { (Lexed text.now start) × (TableHeld text.now work.old) }
    ensures { Defined text.now start work.old work.new result }
{
    let mut at = start;
    let mut w = words::word_at(text, at);
    while defines(w.kind) {
        at = item(text, work, at)?;
        w = words::word_at(text, at);
    }
    Ok(at)
}

// All items from an offset on, up to the text's end.
fn all_items(text: &[u8], work: &mut [u16], start: usize) -> Result<usize, Refusal>
    requires { (Lexed text.now start) × (TableHeld text.now work.old) }
    ensures { ProceedsIn text.now start work.old work.new result }
{
    let mut at = start;
    let mut w = words::word_at(text, at);
    while w.kind != 0 {
        at = item(text, work, at)?;
        w = words::word_at(text, at);
    }
    Ok(at)
}

// The second edition is asked for.
fn says_second(text: &[u8]) -> bool
    requires { Lexed text.now 0 }
    ensures { result ≡ says_second (from text.now 0) }
{
    let w = words::word_at(text, 0);
    if w.kind != EDITION {
        return false;
    }
    let v = words::word_at(text, w.end);
    v.value == 2
}

// The items of a text from an offset on.
fn read_items(text: &[u8], work: &mut [u16], start: usize) -> Result<Whole, Refusal>
    requires { (Lexed text.now start) × (TableHeld text.now work.old) }
    ensures { ItemsRead text.now start work.old work.new result }
{
    let d = definitions(text, work, start)?;
    let seen = follows::row_count(work);
    let r = all_items(text, work, d)?;
    let w = words::word_at(text, r);
    Ok(Whole {
        place: w.start,
        items: d,
        seen,
    })
}

// The whole text: its edition, and its clauses in the table.
pub fn read(text: &[u8], work: &mut [u16]) -> Result<Whole, Refusal>
    requires { (Lexed text.now 0) × ((length text.now ≤ 65535) × (making_size ≤ length work.old)) }
    ensures { TextRead text.now work.old work.new result }
{
    let e = items::edition_end(text, 0)?;
    work[making_memory::CLAUSE_COUNT] = 0;
    work[making_memory::SECOND] = rows::flag(says_second(text));
    read_items(text, work, e)
}
