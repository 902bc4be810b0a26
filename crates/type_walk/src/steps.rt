// One step of the walk.
ghost use Rattle.std.specs.Prelude.{◌≡◌, ◌+◌, ◌≤◌, ◌<◌, length};
ghost use Rattle.notation_calculus.specs.Making.{most_entries};
ghost use Rattle.notation_machine.specs.TypeMachine.{enclosed, argument, other};
ghost use Rattle.words.specs.Lexed.{Lexed};
ghost use Rattle.scopes.specs.Entries.{Places};
ghost use Rattle.walks.specs.Says.{bound_at};
ghost use Rattle.type_walk.specs.Holding.{given_from};
ghost use Rattle.type_walk.specs.Moves.{CanMove, Moved, Known, Given, Both, Anything, inside_ask, enter_at, left_with, side_done, form_by, CanStep, Stepped};
ghost use Rattle.type_walk.specs.Wishes.{number_said};
ghost use Rattle.type_walk.specs.declared.levels.Walking.TheVariants as walking;

use crate::levels::{Come, Here, Side, Walking, Want, Wish};
use crate::{levels, names, rows, sides};
use answers::{Reason, Refusal};
use grammar::steps::{COMMA, END_SQUARE};
use made_types::Record;
use walk_levels::Level;

const ROUND: u8 = 11;

const END_ROUND: u8 = 12;

// ---- a type is wanted

// Behind an opening parenthesis.
fn ask_inside(text: &[u8], work: &mut [u16], h: Here, at: usize) -> Result<Walking, Refusal>
    requires { (CanMove text.now work.old h Anything) × (Lexed text.now at) }
    ensures { Moved text.now work.old h Anything (inside_ask text.now at) result work.new }
{
    let l = Level {
        form: levels::INSIDE,
        flag: levels::flag_of(h.tight),
        place: 0,
        count: 0,
        node: 0,
        ty: 0,
        deep: 0,
        next: 0,
    };
    let q = Want {
        more: h.more,
        tight: false,
        frame: h.frame,
        top: h.top,
        at,
    };
    Ok(levels::wait(work, h, l, q))
}

// A type begins at an offset. There is no enum to match on: a word's kind is the number that `token_code` gives (`words::Word`).
fn enter(text: &[u8], work: &mut [u16], h: Here, at: usize) -> Result<Walking, Refusal>
    requires { (CanMove text.now work.old h Anything) × (Lexed text.now at) }
    ensures { Moved text.now work.old h Anything (enter_at text.now at) result work.new }
{
    let w = words::word_at(text, at);
    if w.kind == words::NAME {
        return names::named_at(text, work, h, w.start, w.end);
    }
    if w.kind == words::NUMBER {
        return rows::ones_from(text, work, h, w.end);
    }
    if w.kind == ROUND {
        return ask_inside(text, work, h, w.end);
    }
    Err(Reason::OtherWordDue.at(w.start))
}

fn want_step(text: &[u8], work: &mut [u16], q: Want) -> Result<Walking, Refusal>
    requires { CanStep text.now work.old (walking.Wanted q) }
    ensures { Stepped text.now work.old (walking.Wanted q) result work.new }
{
    if q.more == 0 {
        let w = words::word_at(text, q.at);
        return Err(Reason::TextLimit.at(w.start));
    }
    let h = Here {
        more: q.more - 1,
        tight: q.tight,
        frame: q.frame,
        top: q.top,
    };
    enter(text, work, h, q.at)
}

// ---- a type came

fn behind_inside(
    text: &[u8],
    work: &mut [u16],
    h: Here,
    ty: u16,
    at: usize,
) -> Result<Walking, Refusal>
    requires { (CanMove text.now work.old h (Known ty)) × (Lexed text.now at) }
    ensures { Moved text.now work.old h (Known ty) (left_with text.now enclosed ty at) result work.new }
{
    let w = words::word_at(text, at);
    if w.kind == END_ROUND {
        return sides::side_from(text, work, h, ty, w.end);
    }
    Err(Reason::OtherWordDue.at(w.start))
}

// The argument waits too; behind it a comma, or the closing bracket.
fn behind_argument(
    text: &[u8],
    work: &mut [u16],
    h: Here,
    name: usize,
    given: usize,
    ty: u16,
    at: usize,
) -> Result<Walking, Refusal>
    requires { (CanMove text.now work.old h (Both (Known ty) (Given work.old h.top given))) × ((Lexed text.now at) × ((name ≤ length text.now) × ((h.top + given < most_entries) × (Places text.now work.old 0 (h.top + given))))) }
    ensures { Moved text.now work.old h (Both (Known ty) (Given work.old h.top given)) (left_with text.now (argument (bound_at text.now name) (given_from work.old h.top given)) ty at) result work.new }
{
    scopes::entries::bind(work, h.top + given, 0, usize::from(ty));
    let w = words::word_at(text, at);
    if w.kind == COMMA {
        return names::ask_argument(text, work, h, name, given + 1, w.end);
    }
    if w.kind == END_SQUARE {
        return names::put_type(text, work, h, name, given + 1, w.end);
    }
    Err(Reason::OtherWordDue.at(w.start))
}

// Behind the other side of a sign: a product may have an arrow behind it.
fn after_side(
    text: &[u8],
    work: &mut [u16],
    h: Here,
    side: Side,
    ty: u16,
    at: usize,
) -> Result<Walking, Refusal>
    requires { (CanMove text.now work.old h (Known ty)) × (Lexed text.now at) }
    ensures { Moved text.now work.old h (Known ty) (side_done text.now (number_said side) ty at) result work.new }
{
    match side {
        Side::Product => sides::arrow_from(text, work, h, ty, at),
        Side::Arrow | Side::Linear => Ok(sides::done(h, ty, at)),
    }
}

// Both sides of a sign are there, and are listed.
fn behind_side(
    text: &[u8],
    work: &mut [u16],
    h: Here,
    l: Level,
    side: Side,
    ty: u16,
    at: usize,
) -> Result<Walking, Refusal>
    requires { (CanMove text.now work.old h (Both (Known l.ty) (Known ty))) × ((Lexed text.now at) × (l.form ≡ number_said side)) }
    ensures { Moved text.now work.old h (Both (Known l.ty) (Known ty)) (left_with text.now (other (form_by l.form) l.place l.ty) ty at) result work.new }
{
    let r = Record {
        kind: side.kind(),
        left: l.ty,
        right: ty,
    };
    let t = made_types::listed(work, r, l.place)?;
    after_side(text, work, h, side, t, at)
}

fn come_step(text: &[u8], work: &mut [u16], q: Come) -> Result<Walking, Refusal>
    requires { CanStep text.now work.old (walking.Came q) }
    ensures { Stepped text.now work.old (walking.Came q) result work.new }
{
    let h = levels::here_at(work, q.more);
    let l = levels::waits_at(work, q.more);
    match levels::wish_of(l.form) {
        Wish::Inside => behind_inside(text, work, h, q.ty, q.at),
        Wish::Body => sides::side_from(text, work, h, q.ty, usize::from(l.next)),
        Wish::Argument => {
            let name = usize::from(l.place);
            let given = usize::from(l.count);
            behind_argument(text, work, h, name, given, q.ty, q.at)
        }
        Wish::Other(side) => behind_side(text, work, h, l, side, q.ty, q.at),
    }
}

pub fn step(text: &[u8], work: &mut [u16], s: Walking) -> Result<Walking, Refusal>
    requires { CanStep text.now work.old s }
    ensures { Stepped text.now work.old s result work.new }
{
    match s {
        Walking::Wanted(q) => want_step(text, work, q),
        Walking::Came(q) => come_step(text, work, q),
    }
}
