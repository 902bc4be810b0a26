// A name in a type: its arguments one by one, a parameter of the definition, or a definition that is put in.
ghost use Rattle.std.specs.Prelude.{◌+◌, ◌≤◌, ◌<◌, [], length};
ghost use Rattle.notation_calculus.specs.Making.{most_entries};
ghost use Rattle.words.specs.Lexed.{Lexed};
ghost use Rattle.scopes.specs.Entries.{Places};
ghost use Rattle.type_walk.specs.Moves.{CanMove, Moved, NameAt, Given, Valued, Anything, argument_ask, put_after, plain_after, named_after, CanAskBody, BodyAsked};

use crate::levels::{Here, Walking, Want};
use crate::{levels, sides};
use answers::{Reason, Refusal};
use grammar::steps::{CURLY, SQUARE};
use walk_levels::Level;
use walks::PutAt;

// A name, the count of its arguments and the offset behind them stay three parameters, here, in `put_type`, `plain_at`, `named_at` and
// `steps::behind_argument`: each function changes some of them and hands the others on.
// The next argument is wanted, of a name at a place, where so many wait already.
pub fn ask_argument(
    text: &[u8],
    work: &mut [u16],
    h: Here,
    name: usize,
    given: usize,
    at: usize,
) -> Result<Walking, Refusal>
    requires { (CanMove text.now work.old h (Given work.old h.top given)) × ((Lexed text.now at) × ((name ≤ length text.now) × (Places text.now work.old 0 (h.top + given)))) }
    ensures { Moved text.now work.old h (Given work.old h.top given) (argument_ask text.now work.old h.top name given at) result work.new }
{
    if !scopes::entries::has_room(h.top, given + 1) {
        return Err(Reason::TextLimit.at(name));
    }
    let l = Level {
        form: levels::ARGUMENT,
        flag: levels::flag_of(h.tight),
        place: name as u16,
        count: given as u16,
        node: 0,
        ty: 0,
        deep: 0,
        next: 0,
    };
    let q = Want {
        more: h.more,
        tight: false,
        frame: h.frame,
        top: h.top + given,
        at,
    };
    Ok(levels::wait(work, h, l, q))
}

// The body of a definition that was put in is wanted.
fn ask_body(text: &[u8], work: &mut [u16], h: Here, p: PutAt) -> Result<Walking, Refusal>
    requires { CanAskBody text.now work.old h p }
    ensures { BodyAsked text.now work.old h p result work.new }
{
    let l = Level {
        form: levels::BODY,
        flag: levels::flag_of(h.tight),
        place: 0,
        count: 0,
        node: 0,
        ty: 0,
        deep: 0,
        next: p.end as u16,
    };
    let q = Want {
        more: h.more,
        tight: false,
        frame: h.more,
        top: p.top,
        at: p.body,
    };
    Ok(levels::wait(work, h, l, q))
}

// The type arguments wait as entries: the definition is put in.
pub fn put_type(
    text: &[u8],
    work: &mut [u16],
    h: Here,
    name: usize,
    given: usize,
    at: usize,
) -> Result<Walking, Refusal>
    requires { (CanMove text.now work.old h (Valued work.old h.top given)) × ((Lexed text.now at) × ((name ≤ length text.now) × (h.top + given ≤ most_entries))) }
    ensures { Moved text.now work.old h (Valued work.old h.top given) (put_after text.now work.old h.top name given at) result work.new }
{
    let p = putting::put_in(text, work, true, name, at, given, h.frame, h.top, h.more)?;
    ask_body(text, work, h, p)
}

// A name without arguments: a parameter of the definition, or a definition.
fn plain_at(
    text: &[u8],
    work: &mut [u16],
    h: Here,
    name: usize,
    at: usize,
) -> Result<Walking, Refusal>
    requires { (CanMove text.now work.old h Anything) × ((Lexed text.now at) × (NameAt text.now name)) }
    ensures { Moved text.now work.old h Anything (plain_after text.now name at) result work.new }
{
    let f = scopes::frames::frame_at(work, h.frame);
    let e = scopes::entries::first_of(text, work, name, f.types, f.numbers);
    if e == f.numbers {
        return put_type(text, work, h, name, 0, at);
    }
    let t = scopes::entries::value_of(work, e);
    sides::side_from(text, work, h, t as u16, at)
}

// Behind a name at a place.
pub fn named_at(
    text: &[u8],
    work: &mut [u16],
    h: Here,
    name: usize,
    at: usize,
) -> Result<Walking, Refusal>
    requires { (CanMove text.now work.old h Anything) × ((Lexed text.now at) × (NameAt text.now name)) }
    ensures { Moved text.now work.old h Anything (named_after text.now name at) result work.new }
{
    let w = words::marks::mark_at(text, at);
    if w.kind == SQUARE {
        return ask_argument(text, work, h, name, 0, w.end);
    }
    if w.kind == CURLY {
        return put_type(text, work, h, name, 0, at);
    }
    plain_at(text, work, h, name, at)
}
