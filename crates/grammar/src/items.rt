// The items of a text: heads, definitions, lines of types, and the edition.
ghost use Rattle.std.specs.Prelude.{Bool, true, false, ◌+◌, length};
ghost use Rattle.notation_calculus.specs.Words.{square, endSquare};
ghost use Rattle.words.specs.Lexed.{from, Lexed};
ghost use Rattle.grammar.specs.Ends.{Ends, EndsIn, type_step, term_step};
ghost use Rattle.grammar.specs.Skips.{name_end, list_end, group_end, head_end, clause_end, item_end, edition_end};

use crate::{names, steps, terms, types};
use answers::{Reason, Refusal};

const TYPE: u8 = 5;

const EDITION: u8 = 6;

const TABLE: u8 = 7;

const EQUALS: u8 = 13;

const MOST_NESTED: usize = 80;

// [ a, b ], or nothing.
fn parameters_end(text: &[u8], at: usize) -> Result<usize, Refusal>
    requires { Lexed text.now at }
    ensures { Ends text.now (length (from text.now at) + 1) (group_end square endSquare name_end (from text.now at)) result }
{
    let w = words::marks::mark_at(text, at);
    if w.kind == steps::SQUARE {
        return names::names_list(text, w.end, steps::END_SQUARE);
    }
    Ok(at)
}

// NAME [ a, b ] { n + 1 } =
pub fn head_end(text: &[u8], at: usize) -> Result<usize, Refusal>
    requires { Lexed text.now at }
    ensures { Ends text.now (length (from text.now at)) (head_end (from text.now at)) result }
{
    let x = steps::name_end(text, at)?;
    let p = parameters_end(text, x)?;
    let k = steps::numbers_end(text, p)?;
    steps::expect(text, k, EQUALS)
}

// A type's definition, behind `type`.
pub fn type_clause_end(text: &[u8], at: usize) -> Result<usize, Refusal>
    requires { Lexed text.now at }
    ensures { Ends text.now (length (from text.now at)) (clause_end (type_step 80 false) (from text.now at)) result }
{
    let h = head_end(text, at)?;
    types::type_end(text, h, MOST_NESTED, false)
}

// A term's definition.
pub fn term_clause_end(text: &[u8], at: usize) -> Result<usize, Refusal>
    requires { Lexed text.now at }
    ensures { Ends text.now (length (from text.now at)) (clause_end (term_step 80) (from text.now at)) result }
{
    let h = head_end(text, at)?;
    terms::term_end(text, h, MOST_NESTED)
}

// Types with commas between, behind `table`.
fn line_end(text: &[u8], at: usize, more: usize) -> Result<usize, Refusal>
    requires { Lexed text.now at }
    ensures { EndsIn text.now at (list_end (type_step more false)) result }
{
    let mut t = types::type_end(text, at, more, false)?;
    loop {
        let c = words::word_at(text, t);
        if c.kind != steps::COMMA {
            return Ok(t);
        }
        t = types::type_end(text, c.end, more, false)?;
    }
}

// Where the item at an offset ends.
#[inline(always)]
pub fn item_end(text: &[u8], at: usize) -> Result<usize, Refusal>
    requires { Lexed text.now at }
    ensures { Ends text.now (length (from text.now at)) (item_end (type_step 80 false) (term_step 80) (from text.now at)) result }
{
    let w = words::word_at(text, at);
    if w.kind == TABLE {
        return line_end(text, w.end, MOST_NESTED);
    }
    if w.kind == TYPE {
        return type_clause_end(text, w.end);
    }
    term_clause_end(text, at)
}

// "edition" 1 or 2, or nothing.
pub fn edition_end(text: &[u8], at: usize) -> Result<usize, Refusal>
    requires { Lexed text.now at }
    ensures { Ends text.now (length (from text.now at) + 1) (edition_end (from text.now at)) result }
{
    let w = words::word_at(text, at);
    if w.kind != EDITION {
        return Ok(at);
    }
    let v = words::word_at(text, w.end);
    if v.kind != words::NUMBER {
        return Err(Reason::OtherWordDue.at(v.start));
    }
    if v.value == 1 {
        return Ok(v.end);
    }
    if v.value == 2 {
        return Ok(v.end);
    }
    Err(Reason::OtherWordDue.at(v.start))
}
