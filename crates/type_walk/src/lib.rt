// The walk over types: the type at an offset, worked out word by word, with a level in the working memory for each type that is not yet
// done. One round of the loop is one step of the machine of types (`type_move`).
#![tactic(auto)]

pub mod levels;
pub mod names;
pub mod rows;
pub mod sides;
pub mod steps;

ghost use Rattle.std.specs.Prelude.{◌≡◌};
ghost use Rattle.walks.specs.Says.{CanType, TypeSays, TypesSay};
ghost use Rattle.type_walk.specs.Loop.{going_in, CanTypeAt};
ghost use Rattle.type_walk.specs.Many.{CanTypeAll, AllTypesSay};

use crate::levels::{Walking, Want};
use answers::{Reason, Refusal};
use grammar::steps::{COMMA, SQUARE};
use walks::{TypeEnd, TypesEnd};

// So many entries may be in scope.
const MOST: usize = making_memory::MOST_ENTRIES as usize;

// More steps than any walk takes: `type_start`, for a text of 65,535 bytes.
const STEPS: u64 = 4295032831;

// A level waits, or a type is wanted.
fn going(s: Walking, more: usize) -> bool
    ensures { result ≡ going_in s more }
{
    match s {
        Walking::Wanted(_) => true,
        Walking::Came(q) => q.more < more,
    }
}

// The type at an offset where the grammar has read one. The counter only shows that the loop ends: it begins at more steps than the machine can
// take, and `type_falls` says that it never reaches 0 too early. A measure read off the levels would have to be worked out from the memory.
// A `for` over so many steps is no plainer: the test would stay in the loop, and behind it would stand `unreachable!()` too.
fn type_at(
    text: &[u8],
    work: &mut [u16],
    at: usize,
    more: usize,
    frame: usize,
    top: usize,
) -> Result<TypeEnd, Refusal>
    requires { CanTypeAt text.now work.old at more frame top }
    ensures { TypeSays text.now work.old at more frame top result work.new }
{
    let mut s = Walking::Wanted(Want {
        more,
        tight: false,
        frame,
        top,
        at,
    });
    let mut left = STEPS;
    while going(s, more) {
        s = steps::step(text, work, s)?;
        left = left - 1;
    }
    match s {
        Walking::Came(q) => Ok(TypeEnd {
            ty: q.ty,
            end: q.at,
        }),
        Walking::Wanted(_) => unreachable!(),
    }
}

// Text and memory are two parameters in all functions of this crate: the text is only read, and in a struct with the memory, which is written, each clause
// would also have to say that the text is as it was. The offset, the levels, the frame and the entries stay four, here, in `type_at`, `types_from` and
// `arguments`: `levels::Want` has them with `tight`, which no caller of these chooses, and `arguments` changes the offset and the entries for each type.
// The type at an offset, as a walk of terms wants it: read by the grammar, then worked out.
pub fn type_from(
    text: &[u8],
    work: &mut [u16],
    at: usize,
    more: usize,
    frame: usize,
    top: usize,
) -> Result<TypeEnd, Refusal>
    requires { CanType text.now work.old at more frame top }
    ensures { TypeSays text.now work.old at more frame top result work.new }
{
    grammar::types::type_end(text, at, 80, false)?;
    type_at(text, work, at, more, frame, top)
}

// The types of a list that the grammar has read, from an offset on: each waits as an entry, and the next is worked out over it.
fn arguments(
    text: &[u8],
    work: &mut [u16],
    at: usize,
    more: usize,
    frame: usize,
    top: usize,
    name: usize,
) -> Result<TypesEnd, Refusal>
    requires { CanTypeAll text.now work.old at more frame top }
    ensures { AllTypesSay text.now work.old at more frame top name result work.new }
{
    let mut p = at;
    for i in 0..MOST - top {
        let t = type_from(text, work, p, more, frame, top + i)?;
        scopes::entries::bind(work, top + i, 0, usize::from(t.ty));
        let c = words::word_at(text, t.end);
        if c.kind != COMMA {
            return Ok(TypesEnd {
                count: i + 1,
                end: c.end,
            });
        }
        p = c.end;
    }
    Err(Reason::TextLimit.at(name))
}

// [ type, type ] behind a name of a term at a place, or nothing.
pub fn types_from(
    text: &[u8],
    work: &mut [u16],
    at: usize,
    more: usize,
    frame: usize,
    top: usize,
    name: usize,
) -> Result<TypesEnd, Refusal>
    requires { CanType text.now work.old at more frame top }
    ensures { TypesSay text.now work.old at more frame top name result work.new }
{
    let w = words::marks::mark_at(text, at);
    if w.kind != SQUARE {
        return Ok(TypesEnd { count: 0, end: at });
    }
    grammar::types::arguments_end(text, at, 80)?;
    arguments(text, work, w.end, more, frame, top, name)
}
