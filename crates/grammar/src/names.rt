// Names that a term or a head binds, and lists of them.
ghost use Rattle.std.specs.Prelude.{◌+◌, ◌<◌, length};
ghost use Rattle.words.specs.Lexed.{from, Lexed};
ghost use Rattle.grammar.specs.Ends.{Ends, EndsIn};
ghost use Rattle.grammar.specs.Skips.{names_end, names_list, apart_end, one_end, lists_end, binds_end};

use crate::steps;
use answers::{Reason, Refusal};

const ROUND: u8 = 11;

const END_ROUND: u8 = 12;

const COLON: u8 = 15;

// Names up to the colon.
fn names_end(text: &[u8], at: usize) -> Result<usize, Refusal>
    requires { Lexed text.now at }
    ensures { EndsIn text.now at names_end result }
{
    let mut x = steps::name_end(text, at)?;
    loop {
        let c = words::word_at(text, x);
        if c.kind == COLON {
            return Ok(x);
        }
        x = steps::name_end(text, x)?;
    }
}

// A list of names, and the sign that closes it.
pub fn names_list(text: &[u8], at: usize, closes: u8) -> Result<usize, Refusal>
    requires { (Lexed text.now at) × (0 < closes) }
    ensures { EndsIn text.now at (names_list closes) result }
{
    let mut x = steps::name_end(text, at)?;
    loop {
        let c = words::word_at(text, x);
        if c.kind != steps::COMMA {
            return steps::expect_word(c, closes);
        }
        x = steps::name_end(text, c.end)?;
    }
}

// Behind the parenthesis of a list: two or more, up to the closing one; a list among them has so many levels.
#[cycle(apart_end_one_end)]
fn apart_end(text: &[u8], at: usize, more: usize) -> Result<usize, Refusal>
    requires { Lexed text.now at }
    ensures { EndsIn text.now at (apart_end (one_end (lists_end more))) result }
{
    let first = one_end(text, at, more)?;
    let second = steps::expect(text, first, steps::COMMA)?;
    let mut x = one_end(text, second, more)?;
    loop {
        let c = words::word_at(text, x);
        if c.kind != steps::COMMA {
            return steps::expect_word(c, END_ROUND);
        }
        x = one_end(text, c.end, more)?;
    }
}

// One of a list, and what `let` binds: a name, or a list of so many levels; 34 where it has more.
#[cycle(apart_end_one_end)]
pub fn one_end(text: &[u8], at: usize, more: usize) -> Result<usize, Refusal>
    requires { Lexed text.now at }
    ensures { Ends text.now (length (from text.now at)) (one_end (lists_end more) (from text.now at)) result }
{
    let w = words::word_at(text, at);
    if w.kind == words::NAME {
        return Ok(w.end);
    }
    if w.kind != ROUND {
        return Err(Reason::OtherWordDue.at(w.start));
    }
    if more == 0 {
        return Err(Reason::TextLimit.at(w.start));
    }
    apart_end(text, w.end, more - 1)
}

// What `fun` binds: names up to the colon, or a list of so many levels. Not inlined, so that it takes no stack at each level of `term_end`.
#[inline(never)]
pub fn binds_end(text: &[u8], at: usize, more: usize) -> Result<usize, Refusal>
    requires { Lexed text.now at }
    ensures { EndsIn text.now at (binds_end (lists_end more)) result }
{
    let w = words::word_at(text, at);
    if w.kind == ROUND {
        return one_end(text, at, more);
    }
    names_end(text, at)
}
