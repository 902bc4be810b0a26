// Steps of the grammar that hold no types and no terms.
ghost use Rattle.std.specs.Prelude.{◌≡◌, ◌+◌, ◌<◌, length};
ghost use Rattle.words.specs.Next.{said_word};
ghost use Rattle.words.specs.Lexed.{from, Lexed};
ghost use Rattle.grammar.specs.Ends.{Ends, Expected};
ghost use Rattle.grammar.specs.Skips.{name_end, plus_end, number_end, ones_end, numbers_end, expect_code};

use answers::{Reason, Refusal};
use words::Word;

pub const SQUARE: u8 = 17;

pub const END_SQUARE: u8 = 18;

pub const CURLY: u8 = 19;

pub const END_CURLY: u8 = 20;

pub const COMMA: u8 = 14;

pub const PLUS: u8 = 21;

// The sign of a code, by a word that was read.
pub fn expect_word(w: Word, sign: u8) -> Result<usize, Refusal>
    ensures { Expected (said_word w) sign result }
{
    if w.kind == sign {
        return Ok(w.end);
    }
    Err(Reason::OtherWordDue.at(w.start))
}

// The sign of a code.
pub fn expect(text: &[u8], at: usize, sign: u8) -> Result<usize, Refusal>
    requires { (Lexed text.now at) × (0 < sign) }
    ensures { Ends text.now (length (from text.now at)) (expect_code sign (from text.now at)) result }
{
    let w = words::word_here(text, at);
    expect_word(w, sign)
}

pub fn name_end(text: &[u8], at: usize) -> Result<usize, Refusal>
    requires { Lexed text.now at }
    ensures { Ends text.now (length (from text.now at)) (name_end (from text.now at)) result }
{
    let w = words::word_at(text, at);
    if w.kind == words::NAME {
        return Ok(w.end);
    }
    Err(Reason::OtherWordDue.at(w.start))
}

// Behind a name: `+` and a number, or nothing.
fn plus_end(text: &[u8], at: usize) -> Result<usize, Refusal>
    requires { Lexed text.now at }
    ensures { Ends text.now (length (from text.now at) + 1) (plus_end (from text.now at)) result }
{
    let p = words::marks::mark_at(text, at);
    if p.kind != PLUS {
        return Ok(at);
    }
    let w = words::word_at(text, p.end);
    if w.kind == words::NUMBER {
        return Ok(w.end);
    }
    Err(Reason::OtherWordDue.at(w.start))
}

// k, n or n + k.
pub fn number_end(text: &[u8], at: usize) -> Result<usize, Refusal>
    requires { Lexed text.now at }
    ensures { Ends text.now (length (from text.now at)) (number_end (from text.now at)) result }
{
    let w = words::word_at(text, at);
    if w.kind == words::NUMBER {
        return Ok(w.end);
    }
    if w.kind == words::NAME {
        return plus_end(text, w.end);
    }
    Err(Reason::OtherWordDue.at(w.start))
}

// Behind a 1: `^` and how many stand in a row, or nothing.
pub fn ones_end(text: &[u8], at: usize) -> Result<usize, Refusal>
    requires { Lexed text.now at }
    ensures { Ends text.now (length (from text.now at) + 1) (ones_end (from text.now at)) result }
{
    let w = words::marks::mark_at(text, at);
    if w.kind != words::POWER {
        return Ok(at);
    }
    number_end(text, w.end)
}

// { .. }, or nothing.
pub fn numbers_end(text: &[u8], at: usize) -> Result<usize, Refusal>
    requires { Lexed text.now at }
    ensures { Ends text.now (length (from text.now at) + 1) (numbers_end (from text.now at)) result }
{
    let w = words::marks::mark_at(text, at);
    if w.kind != CURLY {
        return Ok(at);
    }
    let mut k = number_end(text, w.end)?;
    loop {
        let c = words::word_at(text, k);
        if c.kind != COMMA {
            return expect_word(c, END_CURLY);
        }
        k = number_end(text, c.end)?;
    }
}
