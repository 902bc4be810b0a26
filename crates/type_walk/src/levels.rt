// What the walk is at, and the levels that wait.
ghost use Rattle.std.specs.Prelude.{◌≡◌, ◌≤◌, ◌+◌};
ghost use Rattle.walk_levels.specs.Levels.{InLevels, level_in, pushed};
ghost use Rattle.walk_levels.specs.TypeLevels.{flag_number};
ghost use Rattle.type_walk.specs.Holding.{around_of, here_in};
ghost use Rattle.type_walk.specs.Moves.{CanWait, Waited};
ghost use Rattle.type_walk.specs.Wishes.{number_said, kind_said, WishIs};

use made_types::Kind;
use walk_levels::{Around, Level};

// The forms of a level that waits for no side: for what stands in parentheses, for a definition's body, for an argument of a name.
pub const INSIDE: u16 = 0;

pub const BODY: u16 = 1;

pub const ARGUMENT: u16 = 2;

// The sign between two sides, and the form of the level that waits for the other side.
#[derive(Clone, Copy, Debug, PartialEq, Eq)]
pub enum Side {
    Product = 3,
    Arrow = 4,
    Linear = 5,
}

impl Side {
    // The form's number, as the memory holds it: no derive gives it.
    pub fn number(self) -> u16
        ensures { result ≡ number_said self }
    {
        self as u16
    }

    // The kind of the type that the sign makes of its sides. A `From` would have the same three arms.
    pub fn kind(self) -> Kind
        ensures { result ≡ kind_said self }
    {
        match self {
            Side::Product => Kind::Product,
            Side::Arrow => Kind::Arrow,
            Side::Linear => Kind::Linear,
        }
    }
}

// What a level waits for.
#[derive(Clone, Copy, Debug, PartialEq, Eq)]
pub enum Wish {
    Inside,
    Body,
    Argument,
    Other(Side),
}

// .. by its form. The memory holds numbers, so that one place has to make wishes of them.
pub fn wish_of(form: u16) -> Wish
    requires { form ≤ 5 }
    ensures { WishIs form result }
{
    match form {
        INSIDE => Wish::Inside,
        BODY => Wish::Body,
        ARGUMENT => Wish::Argument,
        3 => Wish::Other(Side::Product),
        4 => Wish::Other(Side::Arrow),
        _ => Wish::Other(Side::Linear),
    }
}

// A type is wanted at an offset, with so many levels left, in the scope of a frame and so many entries; no arrow is read behind a tight one.
#[derive(Clone, Copy, Debug, PartialEq, Eq)]
pub struct Want {
    pub more: usize,
    pub tight: bool,
    pub frame: usize,
    pub top: usize,
    pub at: usize,
}

// A type came, over so many entries, and the offset behind it.
#[derive(Clone, Copy, Debug, PartialEq, Eq)]
pub struct Come {
    pub more: usize,
    pub top: usize,
    pub ty: u16,
    pub at: usize,
}

#[derive(Clone, Copy, Debug, PartialEq, Eq)]
pub enum Walking {
    Wanted(Want),
    Came(Come),
}

// The level that the walk is at: the levels that there may still be below it, and its scope.
#[derive(Clone, Copy, Debug, PartialEq, Eq)]
pub struct Here {
    pub more: usize,
    pub tight: bool,
    pub frame: usize,
    pub top: usize,
}

pub fn flag_of(tight: bool) -> u16
    ensures { result ≡ flag_number tight }
{
    u16::from(tight)
}

// The level waits for the type that is wanted now.
pub fn wait(work: &mut [u16], h: Here, l: Level, q: Want) -> Walking
    requires { CanWait work.old h }
    ensures { Waited work.old h l q result work.new }
{
    let s = Around {
        frame: h.frame as u16,
        top: h.top as u16,
        waiting: 0,
    };
    let m = h.more + 1;
    walk_levels::push(work, m as u16, l, s);
    Walking::Wanted(q)
}

// What the level with so many levels below it waits for.
pub fn waits_at(work: &[u16], more: usize) -> Level
    requires { InLevels work.now (more + 1) }
    ensures { result ≡ level_in work.now (more + 1) }
{
    let m = more + 1;
    walk_levels::level_at(work, m as u16)
}

// .. and the level itself.
pub fn here_at(work: &[u16], more: usize) -> Here
    requires { InLevels work.now (more + 1) }
    ensures { result ≡ here_in work.now more }
{
    let m = more + 1;
    let l = walk_levels::level_at(work, m as u16);
    let s = walk_levels::scope_at(work, m as u16);
    Here {
        more,
        tight: l.flag == 1,
        frame: usize::from(s.frame),
        top: usize::from(s.top),
    }
}
