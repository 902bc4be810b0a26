// The card's profile (document 02, L12), over the root's type and the lean netlist that stands in the working memory by terminal: a pass for 28,
// and three for 29, whose marks are taken away again.
#![tactic(auto)]

mod chain;
mod mark;
pub mod rings;

ghost use Rattle.std.specs.Prelude.{◌≡◌};
ghost use Rattle.export_calculus.specs.Card.{need_all, is_read, output_place, profiled};
ghost use Rattle.lean.specs.Layout.{lean_in};
ghost use Rattle.card.specs.Chains.{chain_in};
ghost use Rattle.card.specs.Rings.{answer_of};
ghost use Rattle.card.specs.Judged.{said_judged};
ghost use Rattle.card.specs.Marks.{Markable};

use answers::{Reason, Refusal};

// The lowest part's output that drives no wire and is no pin. The working memory stays.
fn unread(work: &mut [u16], end: usize, pins: usize) -> Option<usize>
    requires { Markable work.old end pins }
    ensures { (need_all (is_read (lean_in work.old end pins)) 29 output_place (lean_in work.old end pins).elements ≡ answer_of 29 result)
        × (work.new ≡ work.old) }
{
    mark::mark_wires(work, end, pins);
    mark::mark_pins(work, end, pins);
    let lowest = mark::clean(work, end) as usize;
    if lowest < memory::TERMINALS {
        Some(lowest)
    } else {
        None
    }
}

// Whether the profile passes: 27 before 28 before 29; the netlist is not looked at where the root's type is refused. The working memory stays.
pub fn judge(
    records: &[u8],
    root: u8,
    work: &mut [u16],
    end: usize,
    pins: usize,
) -> Result<(), Refusal>
    requires { Markable work.old end pins }
    ensures { (said_judged result ≡ profiled (chain_in records.now 256 root) (lean_in work.old end pins))
        × (work.new ≡ work.old) }
{
    if !chain::is_chain(records, root) {
        return Err(Reason::RootNoChain.at(0));
    }
    if let Some(place) = rings::lowest(&work[..], end, pins) {
        return Err(Reason::CardRing.at(place));
    }
    if let Some(place) = unread(work, end, pins) {
        return Err(Reason::UnreadOutput.at(place));
    }
    Ok(())
}
