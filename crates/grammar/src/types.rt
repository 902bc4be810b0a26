// Where a type ends.
// The text, the offset and the levels that are left go through all functions of the grammar as three parameters and no struct: offset and levels are
// others at each call, so a struct of them would be made anew each time, and written to the stack at each of up to 80 levels.
ghost use Rattle.std.specs.Prelude.{◌≡◌, true, false, ◌+◌, length};
ghost use Rattle.notation_calculus.specs.Words.{square, endSquare};
ghost use Rattle.words.specs.Next.{said_word};
ghost use Rattle.words.specs.Lexed.{from, Lexed, Stands};
ghost use Rattle.grammar.specs.Ends.{Ends, type_step};
ghost use Rattle.grammar.specs.Skips.{group_end, use_end, inside_end, type_atom_end, arrow_end, times_end};

use crate::steps;
use answers::{Reason, Refusal};
use words::Word;

const ARROW: u8 = 8;

const LINEAR: u8 = 9;

const TIMES: u8 = 10;

const ROUND: u8 = 11;

const END_ROUND: u8 = 12;

// [ type, type ], or nothing. Inlined: a call of its own would take stack at each level of type arguments.
#[inline(always)]
#[cycle(arguments_end_arrow_end_atom_end_inside_end_product_end_type_end_use_end)]
pub fn arguments_end(text: &[u8], at: usize, more: usize) -> Result<usize, Refusal>
    requires { Lexed text.now at }
    ensures { Ends text.now (length (from text.now at) + 1) (group_end square endSquare (type_step more false) (from text.now at)) result }
{
    let w = words::word_at(text, at);
    if w.kind != steps::SQUARE {
        return Ok(at);
    }
    let mut next = w.end;
    loop {
        let t = type_end(text, next, more, false)?;
        let c = words::word_at(text, t);
        if c.kind != steps::COMMA {
            return steps::expect_word(c, steps::END_SQUARE);
        }
        next = c.end;
    }
}

// Behind a name that is used: its types and its numbers.
#[cycle(arguments_end_arrow_end_atom_end_inside_end_product_end_type_end_use_end)]
pub fn use_end(text: &[u8], at: usize, more: usize) -> Result<usize, Refusal>
    requires { Lexed text.now at }
    ensures { Ends text.now (length (from text.now at) + 1) (use_end (type_step more false) (from text.now at)) result }
{
    let kind = words::marks::mark_kind(text, at);
    if kind == steps::CURLY {
        return steps::numbers_end(text, at);
    }
    if kind != steps::SQUARE {
        return Ok(at);
    }
    let t = arguments_end(text, at, more)?;
    steps::numbers_end(text, t)
}

// Behind an opening parenthesis: a type, and the closing one.
#[cycle(arguments_end_arrow_end_atom_end_inside_end_product_end_type_end_use_end)]
fn inside_end(text: &[u8], at: usize, more: usize) -> Result<usize, Refusal>
    requires { Lexed text.now at }
    ensures { Ends text.now (length (from text.now at)) (inside_end (type_step more false) (from text.now at)) result }
{
    let t = type_end(text, at, more, false)?;
    steps::expect(text, t, END_ROUND)
}

// 1, bits in a row, a name that is used, or a type in parentheses. The word's kind is a number, here and in `arrow_end`, as in `words::Word`.
#[cycle(arguments_end_arrow_end_atom_end_inside_end_product_end_type_end_use_end)]
fn atom_end(text: &[u8], at: usize, more: usize) -> Result<usize, Refusal>
    requires { Lexed text.now at }
    ensures { Ends text.now (length (from text.now at)) (type_atom_end (type_step more false) (from text.now at)) result }
{
    let w = words::word_at(text, at);
    match w.kind {
        words::NAME => use_end(text, w.end, more),
        ROUND => inside_end(text, w.end, more),
        words::NUMBER if w.value == 1 => steps::ones_end(text, w.end),
        _ => Err(Reason::OtherWordDue.at(w.start)),
    }
}

// By the word at an offset: -> type, -o type, or nothing.
#[cycle(arguments_end_arrow_end_atom_end_inside_end_product_end_type_end_use_end)]
fn arrow_end(text: &[u8], at: usize, more: usize, w: Word) -> Result<usize, Refusal>
    requires { (Lexed text.now at) × (Stands text.now at (said_word w)) }
    ensures { Ends text.now (length (from text.now at) + 1) (arrow_end (type_step more false) (from text.now at)) result }
{
    match w.kind {
        ARROW | LINEAR => type_end(text, w.end, more, false),
        _ => Ok(at),
    }
}

// Behind the sign of a product: a type, and an arrow where one is read.
#[cycle(arguments_end_arrow_end_atom_end_inside_end_product_end_type_end_use_end)]
fn product_end(text: &[u8], at: usize, more: usize, tight: bool) -> Result<usize, Refusal>
    requires { Lexed text.now at }
    ensures { Ends text.now (length (from text.now at)) (times_end (type_step more) tight (from text.now at)) result }
{
    let b = type_end(text, at, more, true)?;
    if tight {
        return Ok(b);
    }
    let w = words::word_at(text, b);
    arrow_end(text, b, more, w)
}

// Where the type at an offset ends: 32, or 34 where there are more than so many levels. Behind a product no arrow is read.
#[cycle(arguments_end_arrow_end_atom_end_inside_end_product_end_type_end_use_end)]
pub fn type_end(text: &[u8], at: usize, more: usize, tight: bool) -> Result<usize, Refusal>
    requires { Lexed text.now at }
    ensures { Ends text.now (length (from text.now at)) (type_step more tight (from text.now at)) result }
{
    if more == 0 {
        let w = words::word_at(text, at);
        return Err(Reason::TextLimit.at(w.start));
    }
    let a = atom_end(text, at, more - 1)?;
    let w = words::word_at(text, a);
    if w.kind == TIMES {
        return product_end(text, w.end, more - 1, tight);
    }
    if tight {
        return Ok(a);
    }
    arrow_end(text, a, more - 1, w)
}
