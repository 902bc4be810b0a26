// Bits in a row.
ghost use Rattle.std.specs.Prelude.{◌≡◌, ◌≤◌, length};
ghost use Rattle.words.specs.Lexed.{Lexed};
ghost use Rattle.type_walk.specs.Moves.{CanMove, Moved, Anything, row_after, power_after, ones_after};

use crate::levels::{Here, Walking};
use crate::sides;
use answers::{Reason, Refusal};

// A bit and so many more left of it, listed at the place of the sign; then what stands behind them.
fn row_from(
    text: &[u8],
    work: &mut [u16],
    h: Here,
    more: usize,
    sign: usize,
    end: usize,
) -> Result<Walking, Refusal>
    requires { (CanMove text.now work.old h Anything) × ((Lexed text.now end) × (sign ≤ length text.now)) }
    ensures { Moved text.now work.old h Anything (row_after text.now more sign end) result work.new }
{
    let t = made_types::row(work, more, sign as u16)?;
    sides::side_from(text, work, h, t, end)
}

// Behind the sign at a place: how many bits there are. None is no type.
fn power_at(
    text: &[u8],
    work: &mut [u16],
    h: Here,
    sign: usize,
    at: usize,
) -> Result<Walking, Refusal>
    requires { (CanMove text.now work.old h Anything) × ((Lexed text.now at) × (sign ≤ length text.now)) }
    ensures { Moved text.now work.old h Anything (power_after text.now sign at) result work.new }
{
    grammar::steps::number_end(text, at)?;
    let f = scopes::frames::frame_at(work, h.frame);
    let v = scopes::arguments::value_at(text, work, at, f);
    let n = v.value?;
    if n == 0 {
        let w = words::word_at(text, at);
        return Err(Reason::UnknownName.at(w.start));
    }
    row_from(text, work, h, n - 1, sign, v.end)
}

// Behind a 1.
pub fn ones_from(text: &[u8], work: &mut [u16], h: Here, at: usize) -> Result<Walking, Refusal>
    requires { (CanMove text.now work.old h Anything) × (Lexed text.now at) }
    ensures { Moved text.now work.old h Anything (ones_after text.now at) result work.new }
{
    let w = words::marks::mark_at(text, at);
    if w.kind == words::POWER {
        return power_at(text, work, h, w.start, w.end);
    }
    sides::side_from(text, work, h, 0, at)
}
