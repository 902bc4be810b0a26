// The nodes that made the elements of a netlist, in the working memory: one flat pass over the term's records.
#![tactic(auto)]

ghost use Rattle.std.specs.Prelude.{◌≡◌, ◌+◌, ◌≤◌, length, replicate};
ghost use Rattle.std.proofs.lemmas.List.Edits.{sets};
ghost use Rattle.calculus.specs.Makers.{makers};
ghost use Rattle.memory.specs.Map.{makers_at};
ghost use Rattle.makers.specs.Naming.{elements_made, Nameable};

use memory::MAKERS;
use records::{Node, Rule};

// The elements that one record makes.
fn own_elements(s: &[u8], sizes: &[u8], node: Node) -> usize
    requires { length sizes.now ≡ 256 }
    ensures { result ≡ elements_made s.now sizes.now node }
{
    let rule = node.rule;
    match rule {
        Rule::Constant => 1,
        _ => {
            if node.subterms == 1 {
                return usize::from(sizes[usize::from(records::bound_by(s, node))]);
            }
            0
        }
    }
}

// So many elements, from an offset on, name a node. An offset and a count: with a slice the caller would write the same bounds.
fn name_own(work: &mut [u16], to: usize, count: usize, node: u16)
    requires { to + count ≤ length work.old }
    ensures { work.new ≡ sets work.old to (replicate count node) }
{
    work[to..to + count].fill(node);
}

// The makers of a term's elements, in making order. The term begins at an offset of the sheet's records and has so many nodes.
pub fn name(s: &[u8], sizes: &[u8], work: &mut [u16], from: usize, nodes: usize)
    requires { Nameable s.now sizes.now work.old from nodes }
    ensures { (q : Nameable s.now sizes.now work.old from nodes)
        → work.new ≡ sets work.old makers_at (makers q.table q.term 0) }
{
    let mut at = from;
    let mut to = MAKERS;
    for k in 0..nodes {
        let node = records::node_at(s, at);
        at = node.next;
        let count = own_elements(s, sizes, node);
        name_own(work, to, count, k as u16);
        to = to + count;
    }
}
