// Behind an atom: a product, then an arrow, or the type is done.
ghost use Rattle.std.specs.Prelude.{◌≡◌, ◌≤◌, ◌<◌, length};
ghost use Rattle.words.specs.Lexed.{Lexed};
ghost use Rattle.type_walk.specs.Moves.{CanMove, Moved, Known, done_at, side_ask, arrow_after, side_after};
ghost use Rattle.type_walk.specs.Wishes.{number_said};

use crate::levels;
use crate::levels::{Come, Here, Side, Walking, Want};
use answers::Refusal;
use walk_levels::Level;

const ARROW: u8 = 8;

const LINEAR: u8 = 9;

const TIMES: u8 = 10;

// The level's type is there.
pub fn done(h: Here, ty: u16, at: usize) -> Walking
    requires { h.more < 82 }
    ensures { result ≡ done_at h ty at }
{
    Walking::Came(Come {
        more: h.more + 1,
        top: h.top,
        ty,
        at,
    })
}

// The side behind the sign at a place, up to which a type stands, is wanted.
fn ask_side(
    text: &[u8],
    work: &mut [u16],
    h: Here,
    side: Side,
    tight: bool,
    ty: u16,
    sign: usize,
    end: usize,
) -> Result<Walking, Refusal>
    requires { (CanMove text.now work.old h (Known ty)) × ((Lexed text.now end) × (sign ≤ length text.now)) }
    ensures { Moved text.now work.old h (Known ty) (side_ask text.now (number_said side) tight ty sign end) result work.new }
{
    let l = Level {
        form: side.number(),
        flag: levels::flag_of(h.tight),
        place: sign as u16,
        count: 0,
        node: 0,
        ty,
        deep: 0,
        next: 0,
    };
    let q = Want {
        more: h.more,
        tight,
        frame: h.frame,
        top: h.top,
        at: end,
    };
    Ok(levels::wait(work, h, l, q))
}

// Behind an atom with its product.
pub fn arrow_from(
    text: &[u8],
    work: &mut [u16],
    h: Here,
    ty: u16,
    at: usize,
) -> Result<Walking, Refusal>
    requires { (CanMove text.now work.old h (Known ty)) × (Lexed text.now at) }
    ensures { Moved text.now work.old h (Known ty) (arrow_after text.now ty at) result work.new }
{
    if h.tight {
        return Ok(done(h, ty, at));
    }
    let w = words::marks::mark_at(text, at);
    if w.kind == ARROW {
        return ask_side(text, work, h, Side::Arrow, false, ty, w.start, w.end);
    }
    if w.kind == LINEAR {
        return ask_side(text, work, h, Side::Linear, false, ty, w.start, w.end);
    }
    Ok(done(h, ty, at))
}

// A type and the offset behind it are passed one by one, here, in `done`, `arrow_from` and the functions of `steps` behind a type that came: they come from
// three places (`rows`, `names::plain_at`, `steps::behind_side`), so that each of these calls would have to make a `walks::TypeEnd` of them first.
// Behind an atom.
pub fn side_from(
    text: &[u8],
    work: &mut [u16],
    h: Here,
    ty: u16,
    at: usize,
) -> Result<Walking, Refusal>
    requires { (CanMove text.now work.old h (Known ty)) × (Lexed text.now at) }
    ensures { Moved text.now work.old h (Known ty) (side_after text.now ty at) result work.new }
{
    let w = words::marks::mark_at(text, at);
    if w.kind == TIMES {
        return ask_side(text, work, h, Side::Product, true, ty, w.start, w.end);
    }
    arrow_from(text, work, h, ty, at)
}
