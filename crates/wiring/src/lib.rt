// The full netlist of a sheet in the working memory: its terminals counted, its elements, wires and pins made. The bytes are those
// behind the sheet's opening: no edition is seen here.
#![tactic(auto)]

ghost use Rattle.std.specs.Prelude.{◌≡◌, [], length};
ghost use Rattle.calculus.specs.Net.{make};
ghost use Rattle.wiring.specs.Count.{own_in};
ghost use Rattle.wiring.specs.Whole.{Read, Accepted, NetStands};

use memory::{DRIVERS, NONE, TERMINALS};
use records::{Node, Rule};
use walk::State;

mod faces;
mod walk;
mod wires;

// The terminals that one record makes.
fn own_terminals(s: &[u8], sizes: &[u8], node: Node) -> usize
    requires { length sizes.now ≡ 256 }
    ensures { result ≡ own_in s.now sizes.now node }
{
    match node.rule {
        Rule::Constant => faces::terminals_of(node.first),
        _ => {
            if node.subterms == 1 {
                return 2 * faces::size_of(sizes, records::bound_by(s, node));
            }
            0
        }
    }
}

// The terminals of a read sheet's term, which begins at an offset and has so many nodes. They can be more than 8,192.
pub fn count(s: &[u8], sizes: &[u8], from: usize, nodes: usize) -> usize
    requires { Read s.now sizes.now from nodes }
    ensures { (q : Read s.now sizes.now from nodes) → result ≡ (make q.told.sheet.table q.told.sheet.term [] 0).next }
{
    let mut at = from;
    let mut total: usize = 0;
    for _ in 0..nodes {
        let node = records::node_at(s, at);
        at = node.next;
        total = total + own_terminals(s, sizes, node);
    }
    total
}

// The numbers of elements, wires and pins that stand in the working memory.
#[derive(Clone, Copy, Debug, PartialEq, Eq)]
pub struct Counts {
    pub elements: usize,
    pub wires: usize,
    pub pins: usize,
}

// The full netlist of an accepted sheet, whose term begins at an offset, made in the working memory.
pub fn make_net(s: &[u8], sizes: &[u8], work: &mut [u16], at: usize) -> Counts
    requires { Accepted s.now sizes.now work.old at }
    ensures { (q : Accepted s.now sizes.now work.old at) → NetStands q.net result work.old work.new }
{
    wires::fill(work, DRIVERS, TERMINALS, NONE);
    let start = State {
        next: 0,
        elements: 0,
        wires: 0,
        top: 0,
        scope: 0,
    };
    let r = walk::make(s, sizes, work, at, start);
    Counts {
        elements: r.elements,
        wires: r.wires,
        pins: r.len,
    }
}
