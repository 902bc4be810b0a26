// The call that makes a sheet of a text: its words and its clauses, its lines, its definitions judged, `main`, and the sheet written.
#![tactic(auto)]

mod judged;
mod lines;

ghost use Rattle.std.specs.Prelude.{◌≡◌, ◌≤◌, length};
ghost use Rattle.notation_calculus.specs.Make.{make_call};
ghost use Rattle.making_memory.specs.Map.{making_size};
ghost use Rattle.sheet_writer.specs.Wrote.{SheetStands};
ghost use Rattle.maker.specs.Made.{CanEnd, MainMade, BehindMade, CanText, TextMade, SheetMade, SheetLeft, RunLeft, called_make};

use answers::{Reason, Refusal};
use made_nodes::Sub;

// `main`, put in at the text's end. The steps down to `text_term` hand on the text's end, and each drops what the one above it has used.
fn main_term(text: &[u8], work: &mut [u16], end: usize) -> Result<Sub, Refusal>
    requires { CanEnd text.now work.old end }
    ensures { MainMade text.now work.old end result work.new }
{
    let b = putting::put_main(text, work, 80, end)?;
    term_walk::rounds::term_from(text, work, b.body, 80, 80, b.top)
}

// .. behind the judging of the definitions
#[inline(never)]
fn behind_lines(text: &[u8], work: &mut [u16], end: usize) -> Result<Sub, Refusal>
    requires { CanEnd text.now work.old end }
    ensures { BehindMade text.now work.old end result work.new }
{
    judged::judged(text, work)?;
    main_term(text, work, end)
}

// .. of a text whose clauses stand in the memory, with so many of them above its first line
#[inline(never)]
fn text_term(
    text: &[u8],
    work: &mut [u16],
    items: usize,
    seen: usize,
    end: usize,
) -> Result<Sub, Refusal>
    requires { CanText text.now work.old items seen end }
    ensures { TextMade text.now work.old items seen end result work.new }
{
    made_types::begin(work);
    lines::lines(text, work, items, seen)?;
    behind_lines(text, work, end)
}

// The term of a text in the working memory, or 30 to 36.
fn made(text: &[u8], work: &mut [u16]) -> Result<Sub, Refusal>
    requires { making_size ≤ length work.old }
    ensures { SheetMade text.now work.old result work.new }
{
    if 65535 < text.len() {
        return Err(Reason::LongText.at(0));
    }
    words::check_words(text)?;
    let r = clauses::texts::read(text, work)?;
    text_term(text, work, r.items, r.seen, r.place)
}

// The sheet in the working memory is written: 17, then 37.
#[inline(never)]
fn written(work: &[u16], out: &mut [u8], places: &mut [u16], root: usize) -> Result<usize, Refusal>
    requires { SheetStands work.now root }
    ensures { SheetLeft work.now root out.old places.old result out.new places.new }
{
    sheet_writer::write(work, out, places, root)
}

// The sheet is made and written. The working memory is not yet cleared.
fn run(text: &[u8], out: &mut [u8], places: &mut [u16], work: &mut [u16]) -> Result<usize, Refusal>
    ensures { RunLeft text.now out.old places.old work.old result out.new places.new work.new }
{
    if work.len() < 32768 {
        return Err(Reason::LittleMemory.at(0));
    }
    let s = made(text, work)?;
    written(work, out, places, usize::from(s.node))
}

// The sheet of a text is written to the start of the output, and the place in the text that each node came from to the start of `places`; or
// the text is refused, and both stay. The first 32,768 numbers of the working memory are 0 afterwards; where it has fewer, that is refusal 1,
// and it stays too.
pub fn make(
    text: &[u8],
    out: &mut [u8],
    places: &mut [u16],
    work: &mut [u16],
) -> Result<usize, Refusal>
    ensures { called_make result out.new places.new work.new ≡ make_call text.now out.old places.old work.old }
{
    let r = run(text, out, places, work);
    translator::clear(work);
    r
}
