// The loop over steps.
ghost use Rattle.std.specs.Prelude.{◌≡◌};
ghost use Rattle.walks.specs.Says.{CanTerm, TermSays};
ghost use Rattle.term_walk.specs.declared.Phase.{Phase};
ghost use Rattle.term_walk.specs.Steps.{CanMoveTerm, StepSays, Finished};

use crate::{Phase, Walk, atoms, binders, leaving, looks};
use answers::{Reason, Refusal};
use made_nodes::Sub;

const FUN: u8 = 1;

const FIX: u8 = 2;

const LET: u8 = 3;

// A term is wanted at the offset. The word's kind is a number, as in `words::Word`: see `atoms::atom_at`.
fn enter(text: &[u8], work: &mut [u16], h: Walk) -> Result<Walk, Refusal>
    requires { (CanMoveTerm text.now work.old h) × (h.phase ≡ Phase.Wanted) }
    ensures { StepSays text.now work.old h result work.new }
{
    let w = looks::look(text, h.at);
    if h.more == 0 {
        return Err(Reason::TextLimit.at(w.start));
    }
    match w.kind {
        FUN => binders::function_from(text, work, h, w.start, w.end),
        FIX => binders::fix_from(text, work, h, w.start, w.end),
        LET => binders::let_from(text, work, h, w.start, w.end),
        _ => atoms::atom_at(
            text,
            work,
            h,
            w.start as u16,
            false,
            w.kind,
            w.value,
            w.start,
            w.end,
        ),
    }
}

// One step.
fn step(text: &[u8], work: &mut [u16], n: Walk) -> Result<Walk, Refusal>
    requires { CanMoveTerm text.now work.old n }
    ensures { StepSays text.now work.old n result work.new }
{
    match n.phase {
        Phase::Wanted => enter(text, work, n),
        Phase::Came => leaving::leave(text, work, n),
        Phase::Applying => atoms::application_from(text, work, n),
    }
}

// A term came at the level that the walk began with.
fn finished(n: Walk, more: usize) -> bool
    ensures { Finished n more result }
{
    match n.phase {
        Phase::Came => n.more == more,
        Phase::Wanted | Phase::Applying => false,
    }
}

// More steps than any walk takes: `term_start_lem`, for a text of 65,535 bytes.
const STEPS: u64 = 6442549247;

// The term at an offset, with so many levels, in a scope. The counter of steps only shows that the loop ends.
// The offset, the levels, the frame and the entries stay four, here and in `looks::type_behind`, as in `type_walk::type_from`: a `Walk` has them with a
// phase, a place and a term, which no caller of these two chooses.
pub fn term_from(
    text: &[u8],
    work: &mut [u16],
    at: usize,
    more: usize,
    frame: usize,
    top: usize,
) -> Result<Sub, Refusal>
    requires { CanTerm text.now work.old at more frame top }
    ensures { TermSays text.now work.old at more frame top result work.new }
{
    let mut n = Walk {
        phase: Phase::Wanted,
        more,
        frame,
        top,
        waiting: 0,
        place: 0,
        sub: crate::nothing(),
        at,
    };
    for _ in 0..STEPS {
        if finished(n, more) {
            return Ok(n.sub);
        }
        n = step(text, work, n)?;
    }
    Err(Reason::OtherWordDue.at(0))
}
