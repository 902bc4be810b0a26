// The netlist that stands in the working memory is written, where it fits.
ghost use Rattle.std.specs.Prelude.{length, drop};
ghost use Rattle.calculus.specs.Read.{records_of};
ghost use Rattle.calculus.specs.Lean.{lean};
ghost use Rattle.calculus.specs.Record.{All};
ghost use Rattle.calculus.specs.Makers.{written};
ghost use Rattle.calculus.specs.Translate.{asked_bytes};
ghost use Rattle.memory.specs.Map.{makers_at, region, net_in, Ready};
ghost use Rattle.calculus.specs.NetRead.{Known};
ghost use Rattle.lean.specs.Layout.{lean_makers_in, lean_in, LeanReady};
ghost use Rattle.export_calculus.specs.Card.{profiled};
ghost use Rattle.card.specs.Chains.{chain_in};
ghost use Rattle.translator.specs.Made.{Keeps};
ghost use Rattle.translator.specs.Said.{AnswerSays, in_room};
ghost use Rattle.translation.specs.Wished.{said_wish, card_by, on_pass};

use crate::Wish;
use answers::{Reason, Refusal};
use wiring::Counts;

// The full netlist; 17 with the length needed where the output is shorter.
fn write_full(work: &[u16], out: &mut [u8], counts: Counts, plain: bool) -> Result<usize, Refusal>
    requires { (Ready work.now counts.elements counts.wires counts.pins) × (All Known (net_in work.now counts.elements counts.wires counts.pins).elements) }
    ensures { AnswerSays result out.old out.new (in_room (written plain (net_in work.now counts.elements counts.wires counts.pins) (region work.now makers_at counts.elements)) (length out.old)) }
{
    let elements = counts.elements;
    let wires = counts.wires;
    let pins = counts.pins;
    let n = netlist::full_length(work, elements, wires, pins, plain);
    if out.len() < n {
        return Err(Reason::ShortOutput.at(n));
    }
    let length = netlist::write_full(work, out, elements, wires, pins, plain);
    Ok(length)
}

// The lean netlist, likewise, where it stands in the working memory by terminal.
fn write_lean(
    work: &[u16],
    out: &mut [u8],
    end: usize,
    pins: usize,
    plain: bool,
) -> Result<usize, Refusal>
    requires { LeanReady work.now end pins }
    ensures { AnswerSays result out.old out.new (in_room (written plain (lean_in work.now end pins) (lean_makers_in work.now end 0 (drop makers_at work.now))) (length out.old)) }
{
    let n = lean::lean_length(work, end, pins, plain);
    if out.len() < n {
        return Err(Reason::ShortOutput.at(n));
    }
    let written = lean::write_lean(work, out, end, pins, plain);
    Ok(written)
}

// Without that check: the lean netlist is made of the full one where it is wished.
fn write_plain(
    work: &mut [u16],
    out: &mut [u8],
    counts: Counts,
    wish: Wish,
) -> Result<usize, Refusal>
    requires { (Ready work.old counts.elements counts.wires counts.pins) × (All Known (net_in work.old counts.elements counts.wires counts.pins).elements) }
    ensures { (AnswerSays result out.old out.new (in_room (asked_bytes (said_wish wish) (net_in work.old counts.elements counts.wires counts.pins) (region work.old makers_at counts.elements)) (length out.old)))
        × (Keeps work.old work.new) }
{
    let plain = wish.plain;
    if wish.lean {
        let end = lean::make_lean(work, counts.elements, counts.wires, counts.pins);
        return write_lean(&work[..], out, end, counts.pins, plain);
    }
    write_full(&work[..], out, counts, plain)
}

// The card's profile is judged over the lean netlist, then the one that is wished is written: making the lean one leaves the full one.
fn write_card(
    records: &[u8],
    work: &mut [u16],
    out: &mut [u8],
    counts: Counts,
    root: u8,
    wish: Wish,
) -> Result<usize, Refusal>
    requires { (Ready work.old counts.elements counts.wires counts.pins) × (All Known (net_in work.old counts.elements counts.wires counts.pins).elements) }
    ensures { (AnswerSays result out.old out.new (on_pass (profiled (chain_in records.now 256 root) (lean (net_in work.old counts.elements counts.wires counts.pins)))
        (in_room (asked_bytes (said_wish wish) (net_in work.old counts.elements counts.wires counts.pins) (region work.old makers_at counts.elements)) (length out.old))))
        × (Keeps work.old work.new) }
{
    let pins = counts.pins;
    let plain = wish.plain;
    let end = lean::make_lean(work, counts.elements, counts.wires, pins);
    card::judge(records, root, work, end, pins)?;
    if wish.lean {
        return write_lean(&work[..], out, end, pins, plain);
    }
    write_full(&work[..], out, counts, plain)
}

// What is wished: the check, and the netlist.
pub fn write(
    sheet: &[u8],
    work: &mut [u16],
    out: &mut [u8],
    counts: Counts,
    root: u8,
    wish: Wish,
) -> Result<usize, Refusal>
    requires { (Ready work.old counts.elements counts.wires counts.pins) × (All Known (net_in work.old counts.elements counts.wires counts.pins).elements) }
    ensures { (AnswerSays result out.old out.new (on_pass (card_by wish.card (chain_in (records_of sheet.now) 256 root) (net_in work.old counts.elements counts.wires counts.pins))
        (in_room (asked_bytes (said_wish wish) (net_in work.old counts.elements counts.wires counts.pins) (region work.old makers_at counts.elements)) (length out.old))))
        × (Keeps work.old work.new) }
{
    if wish.card {
        return write_card(sheet::records_of(sheet), work, out, counts, root, wish);
    }
    write_plain(work, out, counts, wish)
}
