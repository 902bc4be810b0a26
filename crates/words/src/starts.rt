// Where the next word begins. It is not read: a name may be long. `words::next` has a loop of its own, in which the class of each byte tells more.
ghost use Rattle.std.specs.Prelude.{◌≡◌, false, ◌+◌, ◌≤◌, length, drop};
ghost use Rattle.notation_calculus.specs.Words.{gap};
ghost use Rattle.notation_calculus.specs.Grammar.{peek};
ghost use Rattle.words.specs.Lexed.{from, Lexed};

use crate::{blank, blanks_end, step};

// Behind blanks and comments.
pub fn gap_end(text: &[u8], at: usize) -> usize
    requires { at ≤ length text.now }
    ensures { (result ≤ length text.now) × (result ≡ at + gap false (drop at text.now)) }
{
    let mut start = at;
    while start < text.len() {
        if blank(text[start]) {
            start = blanks_end(text, start + 1);
        } else {
            let past = step(text, start);
            if past == start {
                return start;
            }
            start = past;
        }
    }
    start
}

// The words from there on are those from here on: what stands between is not passed again.
pub fn start_of(text: &[u8], at: usize) -> usize
    requires { Lexed text.now at }
    ensures { (Lexed text.now result) × (from text.now result ≡ from text.now at) × (result ≡ (peek (from text.now at)).place) }
{
    gap_end(text, at)
}
