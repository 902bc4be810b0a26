// The word at an offset of a walk, which may be behind the text's end, where no words are left.
ghost use Rattle.std.specs.Prelude.{◌≡◌, ◌<◌, length};
ghost use Rattle.term_walk.specs.Looks.{ReadableFrom, HeadsHeld, Looks, AtomWord};
ghost use Rattle.term_walk.specs.Steps.{CanBehind, BehindType};

use answers::{Reason, Refusal};
use walks::TypeEnd;
use words::Word;

pub fn look(text: &[u8], at: usize) -> Word
    requires { (ReadableFrom text.now at) × (length text.now < 65536) }
    ensures { Looks text.now at result }
{
    let past = text.len() + 1;
    if text.len() < at {
        return Word {
            kind: 0,
            value: 0,
            start: 0,
            end: past,
        };
    }
    let w = words::word_here(text, at);
    if w.kind == 0 {
        return Word {
            kind: 0,
            value: 0,
            start: w.start,
            end: past,
        };
    }
    w
}

// A type is worked out at an offset; none begins where no words are left.
pub fn type_behind(
    text: &[u8],
    work: &mut [u16],
    at: usize,
    more: usize,
    frame: usize,
    top: usize,
) -> Result<TypeEnd, Refusal>
    requires { CanBehind text.now work.old at more frame top }
    ensures { BehindType text.now work.old at more frame top result work.new }
{
    if text.len() < at {
        return Err(Reason::OtherWordDue.at(0));
    }
    type_walk::type_from(text, work, at, more, frame, top)
}

// A byte that ends a look ahead: not a letter, a digit or a space, or nearly so.
fn stops(c: u8) -> bool {
    match c {
        32 => false,
        61 | 91 | 123 => true,
        _ => c < 48,
    }
}

// .. behind which more may have to be read: no parenthesis, comma, dot or `=`.
fn opens(c: u8) -> bool {
    match c {
        40 | 41 | 44 | 46 | 61 => false,
        _ => true,
    }
}

// Whether the table is worth a look: behind the next few bytes there may stand much that nobody pays for. Nothing is said of the answer, since either is
// right: a short head is read faster than it is found.
fn far(text: &[u8], start: usize) -> bool {
    for at in start..text.len() {
        let c = text[at];
        if stops(c) {
            return opens(c);
        }
        if 24 <= at - start {
            return true;
        }
    }
    false
}

// No word: nothing is told but that.
fn no_word() -> Word
    ensures { result.kind ≡ 0 }
{
    Word {
        kind: 0,
        value: 0,
        start: 0,
        end: 0,
    }
}

// The word that begins an atom at an offset; none where no atom begins. Where the table says that a clause begins there, none does: the clause's head,
// which may be long, is not read at each use of the clause before it.
pub fn atom_word(text: &[u8], work: &[u16], at: usize) -> Word
    requires { (ReadableFrom text.now at) × (HeadsHeld text.now work.now) }
    ensures { AtomWord text.now at result }
{
    if text.len() < at {
        return no_word();
    }
    let start = words::starts::start_of(text, at);
    if far(text, start) {
        if clauses::rows::head_at(work, start) {
            return no_word();
        }
    }
    let w = words::word_here(text, start);
    if grammar::heads::word_begins(text, start, w) {
        return w;
    }
    no_word()
}
