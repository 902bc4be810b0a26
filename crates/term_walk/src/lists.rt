// Lists of names, each of which is taken apart in the body of the one before.
ghost use Rattle.std.specs.Prelude.{◌<◌, length};
ghost use Rattle.words.specs.Lexed.{from, Lexed};
ghost use Rattle.grammar.specs.Ends.{Ends};
ghost use Rattle.term_walk.specs.Looks.{ReadableFrom};
ghost use Rattle.term_walk.specs.Steps.{closed_by, CanBound, EnterSays, ListStands, list_made_entry, CanBody, BodySays, list_in_body, under_lists_body};

use crate::{Form, Walk, looks};
use answers::{Reason, Refusal};
use grammar::steps;
use term_parts::{names, variables};
use walk_levels::Level;

const END_ROUND: u8 = 12;

// The items of a list in a text: the place of its parenthesis, the offset behind that, and how many there are.
#[derive(Clone, Copy)]
pub struct Items {
    pub round: usize,
    pub from: usize,
    pub count: usize,
}

// `list_made` and `list_in` take a list as `Items` and the offset beside it: `under_lists` has the offset before it has a list.
//
// Behind the items of a list: the closing parenthesis, and the sign of a code.
pub fn closed(text: &[u8], at: usize, sign: u8) -> Result<usize, Refusal>
    requires { (Lexed text.now at) × (0 < sign) }
    ensures { Ends text.now (length (from text.now at)) (closed_by sign (from text.now at)) result }
{
    let behind = steps::expect(text, at, END_ROUND)?;
    steps::expect(text, behind, sign)
}

// The variable of a list is made, by its number, in the body that the walk is at; the items of the list wait for it.
fn list_made(
    text: &[u8],
    work: &mut [u16],
    h: Walk,
    items: Items,
    number: u16,
    ty: u16,
    at: usize,
) -> Result<Walk, Refusal>
    requires { (CanBound text.now work.old h ty at) × ListStands text.now items.round items.from items.count }
    ensures { EnterSays text.now work.old h (list_made_entry text.now items.round items.from items.count number ty at) result work.new }
{
    if h.more == 1 {
        return Err(Reason::TextLimit.at(items.round));
    }
    let l = Level {
        form: Form::ValueOfNames as u16,
        flag: 0,
        place: items.round as u16,
        count: items.count as u16,
        node: 0,
        ty: 0,
        deep: 0,
        next: items.from as u16,
    };
    let n = crate::below(work, h, l, h.frame, h.top, h.waiting, at);
    let made = made_nodes::leaves::variable(work, number, ty, items.round as u16);
    crate::done(n, made, at)
}

// A list is taken apart in the body that the walk is at: it has a level of its own, and its variable stands in the scope.
pub fn list_in(
    text: &[u8],
    work: &mut [u16],
    n: Walk,
    items: Items,
    at: usize,
) -> Result<Walk, Refusal>
    requires { (CanBody text.now work.old n) × (ReadableFrom text.now at × ListStands text.now items.round items.from items.count) }
    ensures { BodySays text.now work.old n (list_in_body text.now items.round items.from items.count at) result work.new }
{
    if n.more == 0 {
        return Err(Reason::TextLimit.at(items.round));
    }
    let Some(v) = variables::list_at(work, items.round, n.frame, n.top) else {
        return Err(Reason::OtherWordDue.at(items.round));
    };
    list_made(text, work, n, items, v.number, v.ty, at)
}

// The body of names that were bound, before `in` or a dot: the next list of those that begin at an offset is taken apart in it, or it is wanted.
pub fn under_lists(
    text: &[u8],
    work: &mut [u16],
    n: Walk,
    next: usize,
    at: usize,
) -> Result<Walk, Refusal>
    requires { (CanBody text.now work.old n) × (ReadableFrom text.now at × Lexed text.now next) }
    ensures { BodySays text.now work.old n (under_lists_body text.now next at) result work.new }
{
    let Some(l) = names::next_list(text, next) else {
        let within = looks::look(text, at);
        return Ok(crate::wanted(n, within.end));
    };
    let x = names::count_listed(text, l.end)?;
    let items = Items {
        round: l.place,
        from: l.end,
        count: x.count,
    };
    list_in(text, work, n, items, at)
}
