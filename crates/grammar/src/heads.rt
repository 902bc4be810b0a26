// The look ahead: a name, its groups in brackets, and `=` begin a definition.
ghost use Rattle.std.specs.Prelude.{◌≡◌, ◌<◌};
ghost use Rattle.notation_calculus.specs.Words.{equals};
ghost use Rattle.notation_calculus.specs.Grammar.{is, behind_group, begins_atom};
ghost use Rattle.words.specs.Next.{said_word};
ghost use Rattle.words.specs.Lexed.{from, Lexed, Stands};
ghost use Rattle.grammar.specs.Skips.{opens_group, closes_group, depth_by, stops_by};

use crate::steps::{CURLY, END_CURLY, END_SQUARE, SQUARE};
use words::Word;

const ROUND: u8 = 11;

const EQUALS: u8 = 13;

// The code of a word is a number in this file, also in `word_begins` (see `words::Word`): `opens_group`, `closes_group`, `depth_by` and `stops_by` compare it.
fn opens(kind: u8) -> bool
    ensures { result ≡ opens_group kind }
{
    matches!(kind, SQUARE | CURLY)
}

fn closes(kind: u8) -> bool
    ensures { result ≡ closes_group kind }
{
    matches!(kind, END_SQUARE | END_CURLY)
}

// How many groups are open behind a word that ends at an offset.
fn depth(kind: u8, deep: usize, end: usize) -> usize
    requires { deep < end }
    ensures { result ≡ depth_by kind deep }
{
    if opens(kind) {
        return deep + 1;
    }
    if closes(kind) {
        if deep == 0 {
            return 0;
        }
        return deep - 1;
    }
    deep
}

// The groups end before a word.
fn stops(kind: u8, deep: usize) -> bool
    ensures { result ≡ stops_by kind deep }
{
    if kind == 0 {
        return true;
    }
    if deep == 0 {
        return !opens(kind);
    }
    false
}

// Behind a name with groups: `=` behind them.
fn groups(text: &[u8], start: usize) -> bool
    requires { Lexed text.now start }
    ensures { result ≡ is equals (behind_group 0 (from text.now start)) }
{
    let mut at = start;
    let mut deep: usize = 0;
    let mut w = words::word_at(text, at);
    while !stops(w.kind, deep) {
        deep = depth(w.kind, deep, w.end);
        at = w.end;
        w = words::word_at(text, at);
    }
    w.kind == EQUALS
}

// Behind a name: `=` behind its groups, if it has any. The sign behind the name mostly tells.
fn heads(text: &[u8], start: usize) -> bool
    requires { Lexed text.now start }
    ensures { result ≡ is equals (behind_group 0 (from text.now start)) }
{
    let kind = words::marks::mark_kind(text, start);
    if kind == EQUALS {
        return true;
    }
    if opens(kind) {
        return groups(text, start);
    }
    false
}

// An atom begins with the word at an offset, and no definition.
pub fn word_begins(text: &[u8], at: usize, w: Word) -> bool
    requires { Stands text.now at (said_word w) }
    ensures { result ≡ begins_atom (from text.now at) }
{
    match w.kind {
        ROUND | words::PART => true,
        words::NAME => !heads(text, w.end),
        _ => false,
    }
}
