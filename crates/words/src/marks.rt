// Signs: `->`, `-o`, `*`, `=`, `[`, `{`, `+` and `^`. Who looks for one of them asks no more of any other word than that it is none, and of a name or a
// number not even how long it is: its first byte tells, and it is not read.
ghost use Rattle.std.specs.Prelude.{◌≡◌, true, ◌≤◌, ◌<◌, length, get_or};
ghost use Rattle.words.specs.Next.{said_word};
ghost use Rattle.words.specs.Lexed.{Lexed};
ghost use Rattle.words.specs.Marks.{Unread, Marks, Marked};

use crate::starts::gap_end;
use crate::{NAME, Word, digit, either, letter, next};

// A byte that begins a word, and none of those signs.
fn silent(c: u8) -> bool
    ensures { result ≡ true → Unread c }
{
    match c {
        40 | 41 | 44 | 46 | 58 | 93 | 125 => true,
        _ => either(letter(c), digit(c)),
    }
}

// .. stands at an offset.
fn unread(text: &[u8], at: usize) -> bool
    ensures { result ≡ true → (at < length text.now) × (Unread (get_or text.now at 0)) }
{
    if text.len() <= at {
        return false;
    }
    silent(text[at])
}

// The word that stands next; or an empty name, where it is none of the signs.
pub fn mark_at(text: &[u8], at: usize) -> Word
    requires { Lexed text.now at }
    ensures { Marks text.now at (said_word result) }
{
    let start = gap_end(text, at);
    if unread(text, start) {
        return Word {
            kind: NAME,
            value: 0,
            start,
            end: start,
        };
    }
    next(text, at)
}

// Its code alone: that of a name, where it is none of the signs.
pub fn mark_kind(text: &[u8], at: usize) -> u8
    requires { Lexed text.now at }
    ensures { Marked text.now at result }
{
    let start = gap_end(text, at);
    if unread(text, start) {
        return NAME;
    }
    let w = next(text, at);
    w.kind
}
