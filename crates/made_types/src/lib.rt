// The table of types in the working memory: each type once, behind its sides; refusals 35 and 34. Type 0 is the single bit.
#![tactic(auto)]

ghost use Rattle.std.specs.Prelude.{◌≡◌, cond, ◌∷◌, [], ◌+◌, ◌*◌, ◌≤◌, ◌<◌, eqb, leb, length, get_or, set};
ghost use Rattle.std.proofs.lemmas.List.Edits.{sets};
ghost use Rattle.making_memory.specs.Map.{types_at, type_count_at, making_size};
ghost use Rattle.made_types.specs.Held.{kind_in, left_in_lem, right_in, bits_in_lem};
ghost use Rattle.made_types.specs.Listing.{kind_byte, InTypes, Searched, same_in_lem, formed_in, Listable, ListedSays, RowSays};
ghost use Rattle.made_types.specs.States.{Begun, Forgot};

use answers::{Reason, Refusal};
use making_memory::{MOST_TYPES, NODE_COUNT, PUT_COUNT, TYPE_COUNT, TYPES};

// The kinds of types, with the sheet's numbers for them.
#[derive(Clone, Copy, Debug, PartialEq, Eq)]
pub enum Kind {
    Bit = 1,
    Product = 2,
    Arrow = 3,
    Linear = 4,
}

impl Kind {
    // The number of a kind, as the sheet and the memory hold it: no derive gives it.
    pub fn number(self) -> u16
        ensures { result ≡ kind_byte self }
    {
        self as u16
    }
}

// A type's kind and its sides' numbers.
#[derive(Clone, Copy, Debug, PartialEq, Eq)]
pub struct Record {
    pub kind: Kind,
    pub left: u16,
    pub right: u16,
}

pub fn kind_of(work: &[u16], t: u16) -> u16
    requires { InTypes work.now t }
    ensures { result ≡ kind_in work.now t }
{
    work[TYPES + 4 * (t as usize)]
}

pub fn left_of(work: &[u16], t: u16) -> u16
    requires { InTypes work.now t }
    ensures { result ≡ left_in_lem work.now t }
{
    work[TYPES + 4 * (t as usize) + 1]
}

pub fn right_of(work: &[u16], t: u16) -> u16
    requires { InTypes work.now t }
    ensures { result ≡ right_in work.now t }
{
    work[TYPES + 4 * (t as usize) + 2]
}

fn bits_of(work: &[u16], t: u16) -> usize
    requires { InTypes work.now t }
    ensures { result ≡ bits_in_lem work.now t }
{
    usize::from(work[TYPES + 4 * (t as usize) + 3])
}

// A type that may stand in a pair and be used again: no arrow.
pub fn shares(work: &[u16], t: u16) -> bool
    requires { InTypes work.now t }
    ensures { result ≡ leb (kind_in work.now t) 2 }
{
    kind_of(work, t) <= 2
}

// The halves of a product; of another type the single bit twice.
pub fn left_half(work: &[u16], t: u16) -> u16
    requires { InTypes work.now t }
    ensures { result ≡ cond (eqb (kind_in work.now t) 2) (left_in_lem work.now t) 0 }
{
    if kind_of(work, t) == 2 {
        return left_of(work, t);
    }
    0
}

pub fn right_half(work: &[u16], t: u16) -> u16
    requires { InTypes work.now t }
    ensures { result ≡ cond (eqb (kind_in work.now t) 2) (right_in work.now t) 0 }
{
    if kind_of(work, t) == 2 {
        return right_of(work, t);
    }
    0
}

fn same(work: &[u16], t: u16, r: Record) -> bool
    requires { InTypes work.now t }
    ensures { result ≡ same_in_lem work.now t r }
{
    kind_of(work, t) == r.kind.number()
        && left_of(work, t) == r.left
        && right_of(work, t) == r.right
}

// Where a record stands in the table, or where it would come: behind its sides, also where they are not in the table yet. So all products of a row are found in
// one pass.
#[inline(always)]
fn number_in(work: &[u16], r: Record) -> u16
    requires { Listable work.now r }
    ensures { Searched work.now r result }
{
    let n = work[TYPE_COUNT];
    for k in r.right + 1..n {
        if same(work, k, r) {
            return k;
        }
    }
    n.max(r.right + 1)
}

// The sides have the sorts that the form asks for.
fn formed(work: &[u16], r: Record) -> bool
    requires { Listable work.now r }
    ensures { result ≡ formed_in work.now r }
{
    let left = shares(work, r.left);
    match r.kind {
        Kind::Product => left && shares(work, r.right),
        Kind::Arrow => left,
        Kind::Bit | Kind::Linear => !left,
    }
}

fn store(work: &mut [u16], k: u16, r: Record, bits: u16)
    requires { InTypes work.old k }
    ensures { work.new ≡ set (sets work.old (types_at + 4 * k) (kind_byte r.kind ∷ r.left ∷ r.right ∷ bits ∷ [])) type_count_at (k + 1) }
{
    let at = TYPES + 4 * (k as usize);
    work[at] = r.kind.number();
    work[at + 1] = r.left;
    work[at + 2] = r.right;
    work[at + 3] = bits;
    work[TYPE_COUNT] = k + 1;
}

// The number of a record, put at the table's end where it is new: 35, then 34, at a place. Inlined, with the search, so that `row` looks for
// products of the bit alone: that halves what a row of 128 bits takes.
#[inline(always)]
pub fn listed(work: &mut [u16], r: Record, place: u16) -> Result<u16, Refusal>
    requires { Listable work.old r }
    ensures { ListedSays work.old r place result work.new }
{
    let k = number_in(work, r);
    if k < work[TYPE_COUNT] {
        return Ok(k);
    }
    if !formed(work, r) {
        return Err(Reason::WrongSide.at(place as usize));
    }
    let bits = bits_of(work, r.left) + bits_of(work, r.right);
    if 128 < bits {
        return Err(Reason::TextLimit.at(place as usize));
    }
    if MOST_TYPES <= k {
        return Err(Reason::TextLimit.at(place as usize));
    }
    store(work, k, r, bits as u16);
    Ok(k)
}

// A bit and so many more left of it, each in a product that is listed: 34 at a place.
pub fn row(work: &mut [u16], more: usize, place: u16) -> Result<u16, Refusal>
    requires { (making_size ≤ length work.old) × (get_or work.old type_count_at 0 ≤ 256) }
    ensures { RowSays work.old more place result work.new }
{
    let mut t: u16 = 0;
    for _ in 0..more {
        let r = Record {
            kind: Kind::Product,
            left: 0,
            right: t,
        };
        t = listed(work, r, place)?;
    }
    Ok(t)
}

// The table begins with the single bit; there are no nodes, and nothing was put in.
pub fn begin(work: &mut [u16])
    requires { making_size ≤ length work.old }
    ensures { Begun work.old work.new }
{
    let bit = Record {
        kind: Kind::Bit,
        left: 0,
        right: 0,
    };
    store(work, 0, bit, 1);
    work[NODE_COUNT] = 0;
    work[PUT_COUNT] = 0;
}

// The types and the nodes from these numbers on are forgotten; what was put in stays counted.
pub fn forget(work: &mut [u16], types: u16, nodes: u16)
    requires { making_size ≤ length work.old }
    ensures { Forgot work.old types nodes work.new }
{
    work[TYPE_COUNT] = types;
    work[NODE_COUNT] = nodes;
}
