// The public calls for C: the answer of each is one number.
#![tactic(auto)]

ghost use Rattle.std.specs.Prelude.{◌≡◌};
ghost use Rattle.calculus.specs.Stretch.{stretch_of};
ghost use Rattle.batch_calculus.specs.Batch.{batch_call};
ghost use Rattle.foreign_calculus.specs.Foreign.{check_call};
ghost use Rattle.export_calculus.specs.CardCall.{card_call};
ghost use Rattle.trace_calculus.specs.Trace.{run_call};
ghost use Rattle.trace_calculus.specs.Lanes.{lanes_call};
ghost use Rattle.never_calculus.specs.Search.{never_call};
ghost use Rattle.export_calculus.specs.Verilog.{verilog_call};
ghost use Rattle.back_calculus.specs.Returned.{back_call};
ghost use Rattle.notation_calculus.specs.Make.{make_call};
ghost use Rattle.deltawobble.specs.Boundary.{Packs, PacksBatch, PacksLanes, PacksCheck, PacksNever, PacksMake, packed_stretch};

use translation::Wish;

// The arguments of each call are the C interface, so they stay single slices, numbers and flags.
//
// The netlist of a sheet. Bits 0 to 31 of the answer are the number of bytes written or the place, 32 to 39 the refusal's number, 0 for none,
// 40 to 51 the type number wanted and 52 to 63 the one found.
#[unsafe(no_mangle)]
pub extern "C" fn deltawobble_translate(
    sheet: &[u8],
    out: &mut [u8],
    work: &mut [u16],
    lean: bool,
    plain: bool,
    card: bool,
) -> u64
    ensures { Packs result out.new work.new (card_call card (record { lean = lean; plain = plain }) sheet.now out.old work.old) }
{
    let answer = translation::translate(sheet, out, work, Wish { lean, plain, card });
    translator::word(answer)
}

// Sheets laid end to end, with their lengths: the netlists one behind the other, and a result for each sheet, such a word as the answer of
// the call before. The answer's value is the number of bytes of the output that were used.
#[unsafe(no_mangle)]
pub extern "C" fn deltawobble_batch(
    sheets: &[u8],
    lengths: &[u32],
    out: &mut [u8],
    results: &mut [u64],
    work: &mut [u16],
    lean: bool,
    plain: bool,
    card: bool,
) -> u64
    ensures { PacksBatch result out.new results.new work.new (batch_call (record { card = card; wish = record { lean = lean; plain = plain } }) sheets.now lengths.now out.old results.old work.old) }
{
    let answer = batch::batch(
        sheets,
        lengths,
        out,
        results,
        work,
        Wish { lean, plain, card },
    );
    translator::word(answer)
}

// A netlist from outside, in kinds 21 to 24, the full one or a lean one. The answer is 0 where it is accepted, else the refusal's number and
// place as in the calls before; a place from 4,294,967,295 on shows as that number.
#[unsafe(no_mangle)]
pub extern "C" fn deltawobble_check(net: &[u8], work: &mut [u16], lean: bool) -> u64
    ensures { PacksCheck result work.new (check_call lean net.now work.old) }
{
    match foreign::check(net, work, lean) {
        Ok(()) => translator::word(Ok(0)),
        Err(refusal) => translator::word(Err(refusal)),
    }
}

// A recorded trace run through the lean netlist of a sheet; the answer likewise. This and the next are two functions, since their names and
// arguments are the C interface.
#[unsafe(no_mangle)]
pub extern "C" fn deltawobble_run(
    sheet: &[u8],
    inputs: &[u8],
    starts: &[u8],
    out: &mut [u8],
    work: &mut [u16],
    ticks: u16,
) -> u64
    ensures { Packs result out.new work.new (run_call sheet.now inputs.now starts.now ticks out.old work.old) }
{
    let answer = trace::run(sheet, inputs, starts, out, work, ticks);
    translator::word(answer)
}

// Sixteen traces at once, one in each bit of a number; the state is read, and left for the next call. The answer likewise, in numbers.
#[unsafe(no_mangle)]
pub extern "C" fn deltawobble_lanes(
    sheet: &[u8],
    inputs: &[u16],
    state: &mut [u16],
    out: &mut [u16],
    work: &mut [u16],
    ticks: u16,
) -> u64
    ensures { PacksLanes result out.new state.new work.new (lanes_call sheet.now inputs.now state.old ticks out.old work.old) }
{
    let answer = trace::lanes(sheet, inputs, state, out, work, ticks);
    translator::word(answer)
}

// No record of the lean netlist of a sheet has 1 at an output pin: the number of states that its registers can have. Or 40 at the first tick
// at which one has, with a trace that shows it where the output has room; the answer likewise. `trail` and `queue` are left all 0.
#[unsafe(no_mangle)]
pub extern "C" fn deltawobble_never(
    sheet: &[u8],
    starts: &[u8],
    trail: &mut [u32],
    queue: &mut [u32],
    out: &mut [u8],
    work: &mut [u16],
    pin: u16,
) -> u64
    ensures { PacksNever result out.new work.new trail.new queue.new (never_call sheet.now starts.now pin trail.old queue.old out.old work.old) }
{
    let answer = never::never(sheet, starts, trail, queue, out, work, pin);
    translator::word(answer)
}

// The lean netlist of a sheet as a module of Verilog; the answer likewise.
#[unsafe(no_mangle)]
pub extern "C" fn deltawobble_verilog(sheet: &[u8], out: &mut [u8], work: &mut [u16]) -> u64
    ensures { Packs result out.new work.new (verilog_call sheet.now out.old work.old) }
{
    let answer = verilog::verilog(sheet, out, work);
    translator::word(answer)
}

// A netlist back to a sheet; the answer likewise.
#[unsafe(no_mangle)]
pub extern "C" fn deltawobble_back(net: &[u8], out: &mut [u8], work: &mut [u16], lean: bool) -> u64
    ensures { Packs result out.new work.new (back_call lean net.now out.old work.old) }
{
    let answer = back::back(net, out, work, lean);
    translator::word(answer)
}

// The sheet of a text in the notation, and for each of its nodes the offset of the word in the text that it came from; the answer likewise.
#[unsafe(no_mangle)]
pub extern "C" fn deltawobble_make(
    text: &[u8],
    out: &mut [u8],
    places: &mut [u16],
    work: &mut [u16],
) -> u64
    ensures { PacksMake result out.new places.new work.new (make_call text.now out.old places.old work.old) }
{
    let answer = maker::make(text, out, places, work);
    translator::word(answer)
}

// Where the stretch of a node begins, and its length; 0 where the sheet is refused or the number is too large. The length is that of the part
// itself, which `sheet::stretch` returns: C is told numbers, and no part of a slice.
#[unsafe(no_mangle)]
pub extern "C" fn deltawobble_stretch(sheet: &[u8], node: usize) -> u64
    ensures { result ≡ packed_stretch (stretch_of sheet.now node) }
{
    let b = sheet::stretch_bounds(sheet, node);
    let part = sheet::stretch(sheet, node);
    b.start as u64 * 4294967296 + part.len() as u64
}
