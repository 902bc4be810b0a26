// Where a term ends.
ghost use Rattle.std.specs.Prelude.{false, length};
ghost use Rattle.words.specs.Lexed.{from, Lexed};
ghost use Rattle.grammar.specs.Ends.{Ends, EndsIn, type_step, term_step, WordThere};
ghost use Rattle.grammar.specs.Skips.{tuple_end, atom_end, spine_end, bound_type_end, let_value_end};

use crate::{heads, names, steps, types};
use answers::{Reason, Refusal};

const FUN: u8 = 1;

const FIX: u8 = 2;

const LET: u8 = 3;

const IN: u8 = 4;

const ROUND: u8 = 11;

const END_ROUND: u8 = 12;

const EQUALS: u8 = 13;

const COLON: u8 = 15;

const DOT: u8 = 16;

// Behind an opening parenthesis: terms with commas between, and the closing one. Not inlined, so that `atom_end` takes no stack at each level.
#[inline(never)]
#[cycle(atom_end_let_value_end_spine_end_term_end_tuple_end)]
fn tuple_end(text: &[u8], at: usize, more: usize) -> Result<usize, Refusal>
    requires { Lexed text.now at }
    ensures { EndsIn text.now at (tuple_end (term_step more)) result }
{
    let mut next = at;
    loop {
        let t = term_end(text, next, more)?;
        let c = words::word_here(text, t);
        if c.kind != steps::COMMA {
            return steps::expect_word(c, END_ROUND);
        }
        next = c.end;
    }
}

// By the word at an offset: a name that is used, a part, or terms in parentheses. A word is passed on by its fields, which take no stack at each level.
// Its kind is a number, here and in `spine_end`, as in `words::Word`: `WordThere` and the grammar's definitions compare it with `token_code`.
#[cycle(atom_end_let_value_end_spine_end_term_end_tuple_end)]
fn atom_end(
    text: &[u8],
    at: usize,
    more: usize,
    kind: u8,
    start: usize,
    end: usize,
) -> Result<usize, Refusal>
    requires { (Lexed text.now at) × (WordThere text.now at kind start end) }
    ensures { Ends text.now (length (from text.now at)) (atom_end (term_step more) (type_step more false) (from text.now at)) result }
{
    if kind == words::NAME {
        return types::use_end(text, end, more);
    }
    if kind == ROUND {
        return tuple_end(text, end, more);
    }
    if kind == words::PART {
        return Ok(end);
    }
    Err(Reason::OtherWordDue.at(start))
}

// An atom, and the atoms that it is applied to: up to the next head, or a word that begins no atom.
#[cycle(atom_end_let_value_end_spine_end_term_end_tuple_end)]
fn spine_end(
    text: &[u8],
    at: usize,
    more: usize,
    kind: u8,
    start: usize,
    end: usize,
) -> Result<usize, Refusal>
    requires { (Lexed text.now at) × (WordThere text.now at kind start end) }
    ensures { Ends text.now (length (from text.now at)) (spine_end (term_step more) (type_step more false) (from text.now at)) result }
{
    let mut next = at;
    let mut code = kind;
    let mut place = start;
    let mut behind = end;
    loop {
        let t = atom_end(text, next, more, code, place, behind)?;
        let w = words::word_at(text, t);
        if !heads::word_begins(text, t, w) {
            return Ok(t);
        }
        next = t;
        code = w.kind;
        place = w.start;
        behind = w.end;
    }
}

// : type . before a body. Not inlined, as `let_value_end`, so that its answers take no stack in `term_end`.
#[inline(never)]
fn bound_type_end(text: &[u8], at: usize, more: usize) -> Result<usize, Refusal>
    requires { Lexed text.now at }
    ensures { Ends text.now (length (from text.now at)) (bound_type_end (type_step more false) (from text.now at)) result }
{
    let c = steps::expect(text, at, COLON)?;
    let t = types::type_end(text, c, more, false)?;
    steps::expect(text, t, DOT)
}

// = term in, before a body.
#[inline(never)]
#[cycle(atom_end_let_value_end_spine_end_term_end_tuple_end)]
fn let_value_end(text: &[u8], at: usize, more: usize) -> Result<usize, Refusal>
    requires { Lexed text.now at }
    ensures { Ends text.now (length (from text.now at)) (let_value_end (term_step more) (from text.now at)) result }
{
    let c = steps::expect(text, at, EQUALS)?;
    let v = term_end(text, c, more)?;
    steps::expect(text, v, IN)
}

// Where the term at an offset ends: 32, or 34 where there are more than so many levels. A `match` on the kind would have the same four arms.
// A body is the loop's next round and no call, so that bodies in bodies take no stack.
#[cycle(atom_end_let_value_end_spine_end_term_end_tuple_end)]
pub fn term_end(text: &[u8], at: usize, more: usize) -> Result<usize, Refusal>
    requires { Lexed text.now at }
    ensures { Ends text.now (length (from text.now at)) (term_step more (from text.now at)) result }
{
    let mut next = at;
    let mut left = more;
    loop {
        let w = words::word_at(text, next);
        if left == 0 {
            return Err(Reason::TextLimit.at(w.start));
        }
        if w.kind == FUN {
            let x = names::binds_end(text, w.end, left)?;
            next = bound_type_end(text, x, left - 1)?;
        } else if w.kind == FIX {
            let x = steps::name_end(text, w.end)?;
            next = bound_type_end(text, x, left - 1)?;
        } else if w.kind == LET {
            let x = names::one_end(text, w.end, left)?;
            next = let_value_end(text, x, left - 1)?;
        } else {
            return spine_end(text, next, left - 1, w.kind, w.start, w.end);
        }
        left -= 1;
    }
}
