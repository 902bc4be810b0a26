// One call over sheets laid end to end.
#![tactic(auto)]

ghost use Rattle.std.specs.Prelude.{◌≡◌, ◌<◌, ◌≤◌, eqb, length};
ghost use Rattle.export_calculus.specs.CardCall.{wished_call};
ghost use Rattle.translator.specs.Said.{said_answer};
ghost use Rattle.std.specs.declared.result.Result.TheVariants.{Ok};
ghost use Rattle.translation.specs.Wished.{all_wish};
ghost use Rattle.batch_calculus.specs.Batch.{used_by, sum, one_by_one, of_row, batch_call};
ghost use Rattle.batch.specs.Left.{OneLeft, left};

use answers::{Reason, Refusal};
use translation::Wish;

// The bytes of its output that a call used.
fn used_by(answer: Result<usize, Refusal>) -> usize
    ensures { result ≡ used_by (said_answer answer) }
{
    answer.unwrap_or(0)
}

// Whether lengths add up to so many bytes. What is left of the bytes is counted down: a sum of lengths could be too large.
fn adds_up(lengths: &[u32], bytes: usize) -> bool
    ensures { result ≡ eqb (sum lengths.now) bytes }
{
    let mut rest = bytes;
    for length in lengths {
        let size = *length as usize;
        if rest < size {
            return false;
        }
        rest -= size;
    }
    rest == 0
}

// The output, the results, the working memory and the wish go one by one through `batch`, `each` and `one`: a call gets a part of the output,
// `&mut out[used..]`, and the rest whole, so a struct would be made anew at each call.
//
// One sheet is translated to the front of an output, and its result is stored at a place. The bytes used.
fn one(
    sheet: &[u8],
    out: &mut [u8],
    results: &mut [u64],
    work: &mut [u16],
    k: usize,
    wish: Wish,
) -> usize
    requires { k < length results.old }
    ensures { OneLeft result k out.new results.old results.new work.new (wished_call (all_wish wish) sheet.now out.old work.old) }
{
    let answer = translation::translate(sheet, out, work, wish);
    results[k] = translator::word(answer);
    used_by(answer)
}

// All of them, one after the other, each with the output that the earlier ones left unused. The bytes used.
fn each(
    sheets: &[u8],
    lengths: &[u32],
    out: &mut [u8],
    results: &mut [u64],
    work: &mut [u16],
    wish: Wish,
) -> usize
    requires { (sum lengths.now ≡ length sheets.now) × (length lengths.now ≤ length results.old) }
    ensures { left (Ok result) out.new results.new work.new
        ≡ of_row results.old (one_by_one (all_wish wish) sheets.now lengths.now out.old work.old) }
{
    let mut at: usize = 0;
    let mut used: usize = 0;
    for (k, length) in lengths.iter().enumerate() {
        let end = at + *length as usize;
        used += one(&sheets[at..end], &mut out[used..], results, work, k, wish);
        at = end;
    }
    used
}

// Sheets laid end to end, with their lengths: each is translated, its netlist behind those of the earlier ones, and has its result. A
// refused sheet uses nothing of the output and stops nothing. 24, before any sheet is looked at, where the lengths do not add up or there is
// too little room for the results: then nothing is touched.
pub fn batch(
    sheets: &[u8],
    lengths: &[u32],
    out: &mut [u8],
    results: &mut [u64],
    work: &mut [u16],
    wish: Wish,
) -> Result<usize, Refusal>
    ensures { left result out.new results.new work.new
        ≡ batch_call (all_wish wish) sheets.now lengths.now out.old results.old work.old }
{
    if results.len() < lengths.len() {
        return Err(Reason::WrongBatch.at(0));
    }
    if !adds_up(lengths, sheets.len()) {
        return Err(Reason::WrongBatch.at(0));
    }
    Ok(each(sheets, lengths, out, results, work, wish))
}
