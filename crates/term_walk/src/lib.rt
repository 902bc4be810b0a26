// The walk over a term of a text: one loop, each round of which does one step of the machine of terms.
#![tactic(auto)]

ghost use Rattle.std.specs.Prelude.{◌≡◌, ◌≤◌};
ghost use Rattle.term_walk.specs.Steps.{nothing_sub, form_number, walk_at, part_level, done_step, applies_step, CanAskTerm, Below, Asks};

use answers::Refusal;
use made_nodes::Sub;
use walk_levels::{Around, Level};

pub mod atoms;
pub mod binders;
pub mod leaving;
pub mod lists;
pub mod looks;
pub mod rounds;

// ---- the state

// What the walk does next: a term is wanted; a term came; or a term is the function of an application, which may go on.
#[derive(Clone, Copy, PartialEq, Eq)]
pub enum Phase {
    Wanted,
    Came,
    Applying,
}

// Text, memory and walk are three parameters in all functions of this crate: the text is only read and the walk is a value, and in a struct with the
// memory, which is written, each clause would also have to say that the two are as they were.
//
// Its phase; how many levels there may be from this one on; the frame of the scope, its entries, and how many terms wait; where the
// application begins; the term that came or the function; and the offset of the next word.
#[derive(Clone, Copy)]
pub struct Walk {
    pub phase: Phase,
    pub more: usize,
    pub frame: usize,
    pub top: usize,
    pub waiting: usize,
    pub place: u16,
    pub sub: Sub,
    pub at: usize,
}

// What stands left of an atom: where the application begins, and the function so far, if there is one.
#[derive(Clone, Copy)]
pub struct Left {
    pub place: u16,
    pub function: Option<Sub>,
}

// What a level waits for: the body of a function or of a fixed point; the value of a name or of names; the body under a name or names; an
// element of a tuple; or the body of a definition. A level has the form's number in the working memory.
#[derive(Clone, Copy, Debug, PartialEq, Eq)]
pub enum Form {
    OfFunction = 1,
    OfFix = 2,
    ValueOfName = 3,
    ValueOfNames = 4,
    UnderName = 5,
    UnderNames = 6,
    Element = 7,
    OfDefinition = 8,
}

impl Form {
    // The form of a number: levels stand in the memory as numbers, of which `WishHeld` speaks.
    pub fn of(number: u16) -> Form
        requires { (1 ≤ number) × (number ≤ 8) }
        ensures { form_number result ≡ number }
    {
        match number {
            1 => Form::OfFunction,
            2 => Form::OfFix,
            3 => Form::ValueOfName,
            4 => Form::ValueOfNames,
            5 => Form::UnderName,
            6 => Form::UnderNames,
            7 => Form::Element,
            _ => Form::OfDefinition,
        }
    }
}

// No term.
pub fn nothing() -> Sub
    ensures { result ≡ nothing_sub }
{
    Sub {
        node: 0,
        ty: 0,
        deep: 0,
    }
}

// A level that waits for a part of an application, by its numbers, whatever they are: the flag says whether there is a function so far, which `sub` then is.
pub fn numbered_level(form: u16, place: u16, flag: u16, sub: Sub, count: u16, next: u16) -> Level
    ensures { result ≡ record { form = form; flag = flag; place = place; count = count; node = sub.node; ty = sub.ty; deep = sub.deep; next = next } }
{
    Level {
        form,
        flag,
        place,
        count,
        node: sub.node,
        ty: sub.ty,
        deep: sub.deep,
        next,
    }
}

// .. of what stands left of an atom: the function so far stays. The form is a number, as in `Level`, and no `Form`: the level is promised for
// every number, and a `Form` would ask more of callers.
pub fn part_level(form: u16, s: Left, count: u16, next: u16) -> Level
    ensures { result ≡ part_level form s count next }
{
    match s.function {
        None => numbered_level(form, s.place, 0, nothing(), count, next),
        Some(f) => numbered_level(form, s.place, 1, f, count, next),
    }
}

// ---- the next state

// The level that the walk is at waits, and a term is wanted at an offset one level below, in a scope: the walk is there. The scope comes as its frame,
// its entries and the terms that wait, since callers change one of the three and take the others from the walk.
pub fn below(
    work: &mut [u16],
    h: Walk,
    l: Level,
    frame: usize,
    top: usize,
    waiting: usize,
    at: usize,
) -> Walk
    requires { CanAskTerm work.old h }
    ensures { Below work.old h l frame top waiting at result work.new }
{
    let s = Around {
        frame: h.frame as u16,
        top: h.top as u16,
        waiting: h.waiting as u16,
    };
    walk_levels::push(work, h.more as u16, l, s);
    Walk {
        phase: Phase::Wanted,
        more: h.more - 1,
        frame,
        top,
        waiting,
        place: 0,
        sub: nothing(),
        at,
    }
}

// The walk itself, where a term is wanted at an offset.
pub fn wanted(n: Walk, at: usize) -> Walk
    ensures { result ≡ walk_at n at }
{
    Walk {
        phase: Phase::Wanted,
        place: 0,
        sub: nothing(),
        at,
        ..n
    }
}

pub fn ask(
    work: &mut [u16],
    h: Walk,
    l: Level,
    frame: usize,
    top: usize,
    waiting: usize,
    at: usize,
) -> Result<Walk, Refusal>
    requires { CanAskTerm work.old h }
    ensures { Asks work.old h l frame top waiting at result work.new }
{
    Ok(below(work, h, l, frame, top, waiting, at))
}

// The level is done with a term, if it could be made.
pub fn done(h: Walk, made: Result<Sub, Refusal>, at: usize) -> Result<Walk, Refusal>
    ensures { result ≡ done_step h made at }
{
    let sub = made?;
    Ok(Walk {
        phase: Phase::Came,
        place: 0,
        sub,
        at,
        ..h
    })
}

// A term, if it could be made, is the function of the application that begins at a place.
pub fn applies(h: Walk, begins: u16, made: Result<Sub, Refusal>, at: usize) -> Result<Walk, Refusal>
    ensures { result ≡ applies_step h begins made at }
{
    let function = made?;
    Ok(Walk {
        phase: Phase::Applying,
        place: begins,
        sub: function,
        at,
        ..h
    })
}
