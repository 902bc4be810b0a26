// Nodes in the working memory, each made behind its subterms; refusal 34. Types are not judged: where a rule gives no type the single bit is
// taken.
#![tactic(auto)]

ghost use Rattle.std.specs.Prelude.{◌≡◌, cond, ◌∷◌, [], ◌+◌, ◌*◌, ◌≤◌, ◌<◌, leb, length, set};
ghost use Rattle.std.proofs.lemmas.List.Edits.{sets};
ghost use Rattle.making_memory.specs.Map.{nodes_at, node_count_at, making_size};
ghost use Rattle.made_types.specs.Held.{kind_in};
ghost use Rattle.made_types.specs.Listing.{InTypes};
ghost use Rattle.made_nodes.specs.Adding.{NodeSays, UnderSays, OverSays};

pub mod binders;
pub mod leaves;
pub mod pairs;

use answers::{Reason, Refusal};
use making_memory::{MOST_DEEP, MOST_NODES, NODE_COUNT, NODES};

// A term that was made: its last node, which is its root, its type, and its depth.
#[derive(Clone, Copy, Debug, PartialEq, Eq)]
pub struct Sub {
    pub node: u16,
    pub ty: u16,
    pub deep: u16,
}

// A node to be: its kind, its first body byte, its subterms, and the offset of its word.
// The kind is a number here and in `under` and `over`: of every number they promise what is written at most (`only` and `small` of `NodeSays`,
// `UnderSays` and `OverSays`), and an enum would take fewer.
#[derive(Clone, Copy, Debug, PartialEq, Eq)]
pub struct Node {
    pub kind: u16,
    pub body: u16,
    pub left: u16,
    pub right: u16,
    pub place: u16,
}

// One of two, by the sort of a type.
pub fn by_sort<T: Copy>(work: &[u16], t: u16, sharable: T, linear: T) -> T
    requires { InTypes work.now t }
    ensures { result ≡ cond (leb (kind_in work.now t) 2) sharable linear }
{
    if made_types::shares(work, t) {
        return sharable;
    }
    linear
}

fn store(work: &mut [u16], k: u16, n: Node)
    requires { (making_size ≤ length work.old) × (k < 2048) }
    ensures { work.new ≡ set (sets work.old (nodes_at + 5 * k) (n.kind ∷ n.body ∷ n.left ∷ n.right ∷ n.place ∷ [])) node_count_at (k + 1) }
{
    let at = NODES + 5 * (k as usize);
    work[at] = n.kind;
    work[at + 1] = n.body;
    work[at + 2] = n.left;
    work[at + 3] = n.right;
    work[at + 4] = n.place;
    work[NODE_COUNT] = k + 1;
}

// A new node of a type, above terms of some depth: 34 at its word.
pub fn add(work: &mut [u16], n: Node, ty: u16, below: u16) -> Result<Sub, Refusal>
    requires { making_size ≤ length work.old }
    ensures { NodeSays work.old n ty below result work.new }
{
    let k = work[NODE_COUNT];
    if MOST_NODES <= k {
        return Err(Reason::TextLimit.at(n.place as usize));
    }
    if MOST_DEEP <= below {
        return Err(Reason::TextLimit.at(n.place as usize));
    }
    store(work, k, n);
    Ok(Sub {
        node: k,
        ty,
        deep: below + 1,
    })
}

// A node over one term. `under`, `over` and the functions of binders, leaves and pairs take the place, types and terms one by one: each stores only
// some of them in its node, and a struct of them would be unpacked in each.
pub fn under(
    work: &mut [u16],
    kind: u16,
    body: u16,
    place: u16,
    ty: u16,
    e: Sub,
) -> Result<Sub, Refusal>
    requires { making_size ≤ length work.old }
    ensures { UnderSays work.old kind body place ty e result work.new }
{
    let n = Node {
        kind,
        body,
        left: e.node,
        right: 0,
        place,
    };
    add(work, n, ty, e.deep)
}

// A node over two terms.
pub fn over(
    work: &mut [u16],
    kind: u16,
    body: u16,
    place: u16,
    ty: u16,
    a: Sub,
    b: Sub,
) -> Result<Sub, Refusal>
    requires { making_size ≤ length work.old }
    ensures { OverSays work.old kind body place ty a b result work.new }
{
    let n = Node {
        kind,
        body,
        left: a.node,
        right: b.node,
        place,
    };
    let below = a.deep.max(b.deep);
    add(work, n, ty, below)
}
