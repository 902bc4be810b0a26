// What a level does with the term that it waited for; `h` is the level, with the term and the offset behind it.
ghost use Rattle.std.specs.Prelude.{◌≡◌, ◌+◌, ◌≤◌, ◌<◌, leb};
ghost use Rattle.notation_calculus.specs.Making.{most_entries};
ghost use Rattle.term_walk.specs.declared.Phase.{Phase};
ghost use Rattle.term_walk.specs.Holding.{sub_in, left_by};
ghost use Rattle.term_walk.specs.Steps.{CanLeave, LeaveSays, CanMoveTerm, StepSays};

use crate::{Form, Left, Walk, atoms, lists, looks};
use answers::{Reason, Refusal};
use made_nodes::Sub;
use scopes::entries;
use term_parts::halves::Half;
use term_parts::joined::Joint;
use term_parts::{apart, bound, halves, joined};
use walk_levels::Level;

const COMMA: u8 = 14;

// The term that stands in the level.
fn term_of(l: Level) -> Sub
    ensures { result ≡ sub_in l }
{
    Sub {
        node: l.node,
        ty: l.ty,
        deep: l.deep,
    }
}

// What stands left of the atom that the level waited for.
fn left_of(l: Level) -> Left
    ensures { result ≡ left_by l }
{
    let function = if l.flag == 0 { None } else { Some(term_of(l)) };
    Left {
        place: l.place,
        function,
    }
}

// The functions from here to `leave_by` take the walk and the level that it is at; the level is read once, in `leave`,
// and is not of the walk's struct, since a walk that goes on has left it.

// ---- binders

fn leave_function(text: &[u8], work: &mut [u16], h: Walk, l: Level) -> Result<Walk, Refusal>
    requires { (CanLeave text.now work.old h l h.sub) × (l.form ≡ 1) }
    ensures { LeaveSays text.now work.old h l h.sub result work.new }
{
    let made = made_nodes::binders::functions(work, h.top as u16, l.count, l.ty, h.sub);
    crate::done(h, made, h.at)
}

fn leave_fix(text: &[u8], work: &mut [u16], h: Walk, l: Level) -> Result<Walk, Refusal>
    requires { (CanLeave text.now work.old h l h.sub) × (l.form ≡ 2) }
    ensures { LeaveSays text.now work.old h l h.sub result work.new }
{
    let made = made_nodes::binders::fixed_point(work, l.place, l.ty, h.sub);
    crate::done(h, made, h.at)
}

// ---- names for terms

// The name is bound to its value, and the body is wanted behind `in`.
fn bind_value(text: &[u8], work: &mut [u16], h: Walk, l: Level) -> Result<Walk, Refusal>
    requires { (CanLeave text.now work.old h l h.sub) × ((l.form ≡ 3) × (h.top + 1 ≤ most_entries)) }
    ensures { LeaveSays text.now work.old h l h.sub result work.new }
{
    let within = looks::look(text, h.at);
    bound::bind_name(work, h.top, usize::from(l.next), h.sub.ty);
    let after = Level {
        form: Form::UnderName as u16,
        flag: 0,
        place: l.next,
        count: 0,
        node: h.sub.node,
        ty: h.sub.ty,
        deep: h.sub.deep,
        next: 0,
    };
    crate::ask(work, h, after, h.frame, h.top + 1, h.waiting, within.end)
}

fn leave_value(text: &[u8], work: &mut [u16], h: Walk, l: Level) -> Result<Walk, Refusal>
    requires { (CanLeave text.now work.old h l h.sub) × (l.form ≡ 3) }
    ensures { LeaveSays text.now work.old h l h.sub result work.new }
{
    if entries::has_room(h.top, 1) {
        return bind_value(text, work, h, l);
    }
    Err(Reason::TextLimit.at(usize::from(l.place)))
}

// The value is taken apart and its names are bound, for the body; the next list in this one is taken apart there.
fn take_apart(text: &[u8], work: &mut [u16], h: Walk, l: Level) -> Result<Walk, Refusal>
    requires { (CanLeave text.now work.old h l h.sub) × ((l.form ≡ 4) × (h.top + (l.count + l.count) ≤ most_entries)) }
    ensures { LeaveSays text.now work.old h l h.sub result work.new }
{
    let a = apart::apart(
        text,
        work,
        usize::from(l.next),
        usize::from(l.count),
        h.top,
        h.waiting,
        h.sub,
    )?;
    let after = Level {
        form: Form::UnderNames as u16,
        flag: 0,
        place: 0,
        count: (a.waiting - h.waiting) as u16,
        node: 0,
        ty: 0,
        deep: 0,
        next: 0,
    };
    let n = crate::below(work, h, after, h.frame, a.top, a.waiting, h.at);
    lists::under_lists(text, work, n, usize::from(l.next), h.at)
}

// There is room for two entries a name.
fn room_for_pairs(top: usize, count: usize) -> bool
    requires { (top < 65536) × (count < 65536) }
    ensures { result ≡ leb (top + (count + count)) most_entries }
{
    top + (count + count) <= 1024
}

fn leave_values(text: &[u8], work: &mut [u16], h: Walk, l: Level) -> Result<Walk, Refusal>
    requires { (CanLeave text.now work.old h l h.sub) × (l.form ≡ 4) }
    ensures { LeaveSays text.now work.old h l h.sub result work.new }
{
    let count = usize::from(l.count);
    if room_for_pairs(h.top, count) {
        return take_apart(text, work, h, l);
    }
    Err(Reason::TextLimit.at(usize::from(l.place)))
}

fn leave_name(text: &[u8], work: &mut [u16], h: Walk, l: Level) -> Result<Walk, Refusal>
    requires { (CanLeave text.now work.old h l h.sub) × (l.form ≡ 5) }
    ensures { LeaveSays text.now work.old h l h.sub result work.new }
{
    let made = made_nodes::binders::naming(work, l.place, term_of(l), h.sub);
    crate::done(h, made, h.at)
}

fn leave_names(text: &[u8], work: &mut [u16], h: Walk, l: Level) -> Result<Walk, Refusal>
    requires { (CanLeave text.now work.old h l h.sub) × (l.form ≡ 6) }
    ensures { LeaveSays text.now work.old h l h.sub result work.new }
{
    let made = joined::join(
        work,
        Joint::Projection,
        h.waiting,
        usize::from(l.count),
        h.sub,
    );
    crate::done(h, made, h.at)
}

// ---- tuples

// Behind an element: a comma, before which it waits, and the next is wanted; or the closing parenthesis, and the tuple is an atom.
fn leave_element(text: &[u8], work: &mut [u16], h: Walk, l: Level) -> Result<Walk, Refusal>
    requires { (CanLeave text.now work.old h l h.sub) × (l.form ≡ 7) }
    ensures { LeaveSays text.now work.old h l h.sub result work.new }
{
    let w = looks::look(text, h.at);
    if w.kind != COMMA {
        let made = joined::join(work, Joint::Pair, h.waiting, usize::from(l.count), h.sub)?;
        return atoms::behind_atom(work, h, left_of(l), made, w.end);
    }
    let half = Half {
        node: h.sub.node,
        ty: h.sub.ty,
        deep: h.sub.deep,
        place: w.start as u16,
    };
    let i = h.waiting + usize::from(l.count);
    halves::put_half(work, i, half);
    let after = crate::part_level(Form::Element as u16, left_of(l), l.count + 1, 0);
    crate::ask(work, h, after, h.frame, h.top, i + 1, w.end)
}

fn leave_definition(text: &[u8], work: &mut [u16], h: Walk, l: Level) -> Result<Walk, Refusal>
    requires { (CanLeave text.now work.old h l h.sub) × (l.form ≡ 8) }
    ensures { LeaveSays text.now work.old h l h.sub result work.new }
{
    atoms::behind_atom(work, h, left_of(l), h.sub, usize::from(l.next))
}

// ---- every form

fn leave_by(text: &[u8], work: &mut [u16], h: Walk, l: Level) -> Result<Walk, Refusal>
    requires { CanLeave text.now work.old h l h.sub }
    ensures { LeaveSays text.now work.old h l h.sub result work.new }
{
    match Form::of(l.form) {
        Form::OfFunction => leave_function(text, work, h, l),
        Form::OfFix => leave_fix(text, work, h, l),
        Form::ValueOfName => leave_value(text, work, h, l),
        Form::ValueOfNames => leave_values(text, work, h, l),
        Form::UnderName => leave_name(text, work, h, l),
        Form::UnderNames => leave_names(text, work, h, l),
        Form::Element => leave_element(text, work, h, l),
        Form::OfDefinition => leave_definition(text, work, h, l),
    }
}

// The term came that the nearest level waited for.
pub fn leave(text: &[u8], work: &mut [u16], n: Walk) -> Result<Walk, Refusal>
    requires { (CanMoveTerm text.now work.old n) × (n.phase ≡ Phase.Came) }
    ensures { StepSays text.now work.old n result work.new }
{
    let sub = n.sub;
    let m = n.more + 1;
    let l = walk_levels::level_at(work, m as u16);
    let s = walk_levels::scope_at(work, m as u16);
    let h = Walk {
        phase: crate::Phase::Came,
        more: m,
        frame: usize::from(s.frame),
        top: usize::from(s.top),
        waiting: usize::from(s.waiting),
        place: 0,
        sub,
        at: n.at,
    };
    leave_by(text, work, h, l)
}
