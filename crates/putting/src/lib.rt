// A definition put in: the numbers that it is given, the clause that its name means, what that costs, and the scope that its body has.
#![tactic(auto)]

ghost use Rattle.std.specs.Prelude.{◌≡◌};
ghost use Rattle.walks.specs.Says.{CanPut, PutSays};
ghost use Rattle.putting.specs.Putting.{NumbersSay, CanPlace, PlacedSays, CanMean, MeantSays};
ghost use Rattle.putting.specs.Main.{CanMain, MainSays};

use answers::{Reason, Refusal};
use clauses::meant::Asked;
use walks::PutAt;

pub mod mains;

// How many numbers wait as arguments, and the offset behind them.
#[derive(Clone, Copy, Debug, PartialEq, Eq)]
pub struct NumbersEnd {
    pub count: usize,
    pub end: usize,
}

// The offset of a definition's body, and how many entries there are now.
#[derive(Clone, Copy, Debug, PartialEq, Eq)]
pub struct BodyAt {
    pub body: usize,
    pub top: usize,
}

// Text, memory, frame, top and the frame `into` stay parameters, here and in `placed`, `put_meant`, `put_in` and `put_main`: `put_main` has no frame, `placed`
// only the new one, and a struct with the text beside the memory that is written would need a clause that the text is as it was.
// The numbers at an offset, behind the type arguments that wait: 32 and 34 of the grammar, then 34 and 33 of each number.
fn numbers_behind(
    text: &[u8],
    work: &mut [u16],
    name: usize,
    at: usize,
    types: usize,
    frame: usize,
    top: usize,
    into: usize,
) -> Result<NumbersEnd, Refusal>
    requires { CanPut text.now work.old name at types frame top into }
    ensures { NumbersSay text.now work.old name at types frame top result work.new }
{
    let kind = words::marks::mark_kind(text, at);
    if kind != grammar::steps::CURLY {
        return Ok(NumbersEnd { count: 0, end: at });
    }
    let end = grammar::steps::numbers_end(text, at)?;
    let g = clauses::groups::group_at(text, at, grammar::steps::CURLY);
    let f = scopes::frames::frame_at(work, frame);
    scopes::arguments::numbers_given(text, work, at, g.count, name, f, top + types)?;
    Ok(NumbersEnd {
        count: g.count,
        end,
    })
}

// Clause k, if it is below `seen`, with its arguments above so many entries: 33, then 34 for its cost; its scope is put into a frame.
fn placed(
    text: &[u8],
    work: &mut [u16],
    k: usize,
    seen: usize,
    place: usize,
    top: usize,
    into: usize,
) -> Result<BodyAt, Refusal>
    requires { CanPlace text.now work.old k seen top into }
    ensures { PlacedSays text.now work.old k seen place top into result work.new }
{
    if seen <= k {
        return Err(Reason::UnknownName.at(place));
    }
    let c = clauses::rows::row_at(work, k);
    let cost = scopes::puts::cost_of(text, c);
    if !scopes::puts::count_put(work, cost) {
        return Err(Reason::TextLimit.at(place));
    }
    scopes::opened::open(text, work, k, into, top);
    Ok(BodyAt {
        body: c.body,
        top: top + c.types + c.numbers,
    })
}

// The clause that a name means with its arguments, among those that the scope's definition knows.
fn put_meant(
    text: &[u8],
    work: &mut [u16],
    q: Asked,
    frame: usize,
    top: usize,
    into: usize,
) -> Result<BodyAt, Refusal>
    requires { CanMean text.now work.old q frame top into }
    ensures { MeantSays text.now work.old q frame top into result work.new }
{
    let f = scopes::frames::frame_at(work, frame);
    let k = clauses::meant::clause_for(text, work, q, f.seen);
    placed(text, work, k, f.seen, q.name, top, into)
}

// A definition of a sort (yes means a type) by a name at a place, with its numbers at an offset and so many type arguments that wait from
// entry `top` on, in the scope of a frame; its own scope is put into the frame `into`.
pub fn put_in(
    text: &[u8],
    work: &mut [u16],
    sort: bool,
    name: usize,
    at: usize,
    types: usize,
    frame: usize,
    top: usize,
    into: usize,
) -> Result<PutAt, Refusal>
    requires { CanPut text.now work.old name at types frame top into }
    ensures { PutSays text.now work.old sort name at types frame top into result work.new }
{
    let n = numbers_behind(text, work, name, at, types, frame, top, into)?;
    let q = Asked {
        sort,
        name,
        types,
        numbers: n.count,
        first: top + types,
    };
    let b = put_meant(text, work, q, frame, top, into)?;
    Ok(PutAt {
        body: b.body,
        end: n.end,
        top: b.top,
    })
}

// `main`, put in at the text's end, with its scope in the frame `into` over no entries: 33 where there is none, 34 for its cost.
pub fn put_main(text: &[u8], work: &mut [u16], into: usize, place: usize) -> Result<BodyAt, Refusal>
    requires { CanMain text.now work.old into }
    ensures { MainSays text.now work.old into place result work.new }
{
    let n = clauses::follows::row_count(work);
    let k = mains::first_main(text, work, n);
    placed(text, work, k, n, place, 0, into)
}
