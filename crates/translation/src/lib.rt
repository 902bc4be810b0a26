// The call that writes a netlist: it makes the full one in the working memory, writes the one that is wished, and clears.
#![tactic(auto)]

mod write;

ghost use Rattle.std.specs.Prelude.{◌≡◌, length};
ghost use Rattle.export_calculus.specs.CardCall.{card_answer, card_call};
ghost use Rattle.translator.specs.Made.{Keeps};
ghost use Rattle.translator.specs.Said.{AnswerSays, called};
ghost use Rattle.translation.specs.Wished.{said_wish};

use answers::Refusal;

// What a caller wishes: the lean netlist or the full one; the plain kinds 21 and 22, or every element with the node that made it; the
// card's profile checked, or not.
#[derive(Clone, Copy, Debug, PartialEq, Eq)]
pub struct Wish {
    pub lean: bool,
    pub plain: bool,
    pub card: bool,
}

// The buffers and the wish go one by one through `run`, `translate`, `write`, `write_plain` and `write_card`: the caller lends each buffer, and the
// clauses say of each alone what is left in it.
//
// The netlist is made and written. The working memory is not yet cleared.
fn run(sheet: &[u8], out: &mut [u8], work: &mut [u16], wish: Wish) -> Result<usize, Refusal>
    ensures { (AnswerSays result out.old out.new (card_answer wish.card (length work.old) (said_wish wish) sheet.now (length out.old)))
        × (Keeps work.old work.new) }
{
    let made = translator::make(sheet, work, wish.plain)?;
    write::write(sheet, work, out, made.counts, made.root, wish)
}

// The netlist of a sheet, the full one or the lean one, is written to the start of the output; or the sheet is refused, and the output
// stays. The first 32,768 numbers of the working memory are 0 afterwards; where it has fewer, that is refusal 1, and it stays too.
pub fn translate(
    sheet: &[u8],
    out: &mut [u8],
    work: &mut [u16],
    wish: Wish,
) -> Result<usize, Refusal>
    ensures { called result out.new work.new ≡ card_call wish.card (said_wish wish) sheet.now out.old work.old }
{
    let r = run(sheet, out, work, wish);
    translator::clear(work);
    r
}
