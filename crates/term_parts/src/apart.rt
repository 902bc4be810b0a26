// Pairs taken apart: `let (x, y, ..) = ..`.
ghost use Rattle.std.specs.Prelude.{◌≤◌};
ghost use Rattle.made_types.specs.Listing.{InTypes};
ghost use Rattle.term_parts.specs.Parts.{CanTake, TakeSays, RestSays, CanTakeAt, TakeRestSays, TakeLastSays, CanApart, RestsSay, ApartSays};

use crate::halves::Half;
use crate::{bound, halves, names};
use answers::{Reason, Refusal};
use made_nodes::{Node, Sub};

// How many entries and how many terms that wait there are now.
#[derive(Clone, Copy)]
pub struct ApartEnd {
    pub top: usize,
    pub waiting: usize,
}

// A pair's halves are bound to the names at two places, and the pair waits with the first of them. The functions down to `apart` take the offset, the
// entry, the half and the pair one by one: all four change from one name to the next, so that a struct of them would be made anew for each call.
fn take(work: &mut [u16], entry: usize, half: usize, place: usize, other: usize, v: Sub)
    requires { CanTake work.old entry half place other v }
    ensures { TakeSays work.old entry half place other v work.new }
{
    let left = made_types::left_half(work, v.ty);
    let right = made_types::right_half(work, v.ty);
    bound::bind_name(work, entry, place, left);
    bound::bind_name(work, entry + 1, other, right);
    let h = Half {
        node: v.node,
        ty: v.ty,
        deep: v.deep,
        place: place as u16,
    };
    halves::put_half(work, half, h);
}

// The rest of a pair as the nearest variable.
fn rest_of(work: &mut [u16], place: u16, v: Sub) -> Result<Sub, Refusal>
    requires { InTypes work.old v.ty }
    ensures { RestSays work.old place v result work.new }
{
    let right = made_types::right_half(work, v.ty);
    let n = Node {
        kind: 0x11,
        body: 0,
        left: 0,
        right: 0,
        place,
    };
    made_nodes::add(work, n, right, 0)
}

// The rest of a pair that was taken apart, and the offset of the names that are left for it.
#[derive(Clone, Copy)]
pub struct RestEnd {
    pub next: usize,
    pub sub: Sub,
}

// A pair is taken apart for the first name at an offset and for its rest, which has the place of no name.
fn take_rest(
    text: &[u8],
    work: &mut [u16],
    at: usize,
    entry: usize,
    half: usize,
    v: Sub,
) -> Result<RestEnd, Refusal>
    requires { CanTakeAt text.now work.old at entry half v }
    ensures { TakeRestSays text.now work.old at entry half v result work.new }
{
    let t = names::two_names(text, at);
    take(work, entry, half, t.first, text.len(), v);
    let sub = rest_of(work, t.second as u16, v)?;
    Ok(RestEnd { next: t.next, sub })
}

// The last pair is taken apart for the last two names.
fn take_last(text: &[u8], work: &mut [u16], at: usize, entry: usize, half: usize, v: Sub)
    requires { CanTakeAt text.now work.old at entry half v }
    ensures { TakeLastSays text.now work.old at entry half v work.new }
{
    let t = names::two_names(text, at);
    take(work, entry, half, t.first, t.second, v);
}

// All names but the last two.
fn take_rests(
    text: &[u8],
    work: &mut [u16],
    at: usize,
    count: usize,
    top: usize,
    waiting: usize,
    v: Sub,
) -> Result<RestEnd, Refusal>
    requires { (CanApart text.now work.old at count top waiting v) × (2 ≤ count) }
    ensures { RestsSay text.now work.old at count top waiting v result work.new }
{
    let mut p = at;
    let mut s = v;
    for i in 0..count - 2 {
        let rest = take_rest(text, work, p, top + 2 * i, waiting + i, s)?;
        p = rest.next;
        s = rest.sub;
    }
    Ok(RestEnd { next: p, sub: s })
}

// A pair taken apart for the names of a list at an offset.
pub fn apart(
    text: &[u8],
    work: &mut [u16],
    at: usize,
    count: usize,
    top: usize,
    waiting: usize,
    v: Sub,
) -> Result<ApartEnd, Refusal>
    requires { CanApart text.now work.old at count top waiting v }
    ensures { ApartSays text.now work.old at count top waiting v result work.new }
{
    if count < 2 {
        return Err(Reason::OtherWordDue.at(0));
    }
    let rests = take_rests(text, work, at, count, top, waiting, v)?;
    let taken = count - 2;
    take_last(
        text,
        work,
        rests.next,
        top + 2 * taken,
        waiting + taken,
        rests.sub,
    );
    Ok(ApartEnd {
        top: top + 2 * taken + 2,
        waiting: waiting + taken + 1,
    })
}
