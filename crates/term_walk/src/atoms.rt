// Atoms of an application: parentheses, parts, variables, and definitions put in.
ghost use Rattle.std.specs.Prelude.{◌≡◌, ◌+◌, ◌≤◌, ◌<◌, length, drop};
ghost use Rattle.notation_calculus.specs.Words.{run};
ghost use Rattle.notation_calculus.specs.Making.{most_entries};
ghost use Rattle.words.specs.Lexed.{Lexed};
ghost use Rattle.term_walk.specs.Looks.{Looks};
ghost use Rattle.term_walk.specs.Steps.{function_here, left_here, CanApply, BehindSays, CanApplyMade, MadeSays, CanAtom, AtomSays, TypesWait, clause_entry, put_entry, plain_entry, named_entry, atom_entry, CanApplication, ApplicationSays};

use crate::{Form, Left, Walk, looks};
use answers::{Reason, Refusal};
use made_nodes::Sub;

const ROUND: u8 = 11;

const SQUARE: u8 = 17;

const CURLY: u8 = 19;

// An atom is there: it is the function, or the argument of the function so far.
pub fn behind_atom(work: &mut [u16], h: Walk, s: Left, x: Sub, at: usize) -> Result<Walk, Refusal>
    requires { CanApply work.old s x }
    ensures { BehindSays work.old h s x at result work.new }
{
    let Some(f) = s.function else {
        return crate::applies(h, s.place, Ok(x), at);
    };
    let made = made_nodes::pairs::applied(work, s.place, f, x);
    crate::applies(h, s.place, made, at)
}

// A definition is put in, with so many type arguments that wait; its body is wanted, and the level waits before the words behind the name
// and its arguments.
fn put_clause(
    text: &[u8],
    work: &mut [u16],
    h: Walk,
    s: Left,
    name: usize,
    at: usize,
    types: usize,
) -> Result<Walk, Refusal>
    requires { (CanAtom text.now work.old h s) × ((Lexed text.now at) × ((name ≤ length text.now) × ((h.top + types ≤ most_entries) × TypesWait work.old h.top types))) }
    ensures { AtomSays text.now work.old h s (clause_entry text.now work.old name at h.top types) result work.new }
{
    let below = h.more - 1;
    let q = putting::put_in(text, work, false, name, at, types, h.frame, h.top, below)?;
    let l = crate::part_level(Form::OfDefinition as u16, s, 0, q.end as u16);
    crate::ask(work, h, l, below, q.top, h.waiting, q.body)
}

// A name that is no variable: its type arguments, and then the definition.
fn put_term(
    text: &[u8],
    work: &mut [u16],
    h: Walk,
    s: Left,
    name: usize,
    at: usize,
) -> Result<Walk, Refusal>
    requires { (CanAtom text.now work.old h s) × ((Lexed text.now at) × (name ≤ length text.now)) }
    ensures { AtomSays text.now work.old h s (put_entry text.now name at) result work.new }
{
    let t = type_walk::types_from(text, work, at, h.more - 1, h.frame, h.top, name)?;
    put_clause(text, work, h, s, name, t.end, t.count)
}

// A name without arguments: the nearest variable of its definition, or a definition.
fn plain_at(
    text: &[u8],
    work: &mut [u16],
    h: Walk,
    s: Left,
    name: usize,
    at: usize,
) -> Result<Walk, Refusal>
    requires { (CanAtom text.now work.old h s) × ((Lexed text.now at) × ((name ≤ length text.now) × (0 < run (drop name text.now)))) }
    ensures { AtomSays text.now work.old h s (plain_entry text.now name at) result work.new }
{
    let Some(v) = term_parts::variables::variable_at(text, work, name, h.frame, h.top) else {
        return put_term(text, work, h, s, name, at);
    };
    let made = made_nodes::leaves::variable(work, v.number, v.ty, name as u16)?;
    behind_atom(work, h, s, made, at)
}

// Behind a name: arguments, or none. What stands left of the atom, the name's place and the offset behind it go one by one through the four
// functions from `put_clause` on: `plain_at` looks the name up and hands the rest to `behind_atom`, and `put_term` moves the offset on.
fn named_at(
    text: &[u8],
    work: &mut [u16],
    h: Walk,
    s: Left,
    name: usize,
    at: usize,
) -> Result<Walk, Refusal>
    requires { (CanAtom text.now work.old h s) × ((Lexed text.now at) × ((name ≤ length text.now) × (0 < run (drop name text.now)))) }
    ensures { AtomSays text.now work.old h s (named_entry text.now name at) result work.new }
{
    let kind = words::marks::mark_kind(text, at);
    if kind == SQUARE {
        return put_term(text, work, h, s, name, at);
    }
    if kind == CURLY {
        return put_term(text, work, h, s, name, at);
    }
    plain_at(text, work, h, s, name, at)
}

// The function so far: the walk's own term, or none.
fn so_far(h: Walk, applied: bool) -> Option<Sub>
    ensures { result ≡ function_here h applied }
{
    if applied { Some(h.sub) } else { None }
}

// An atom begins with the word at the offset: behind an opening parenthesis the first element is wanted. The word, where the application begins, and whether
// the walk's term is the function so far are passed on as numbers: a struct that was just written is waited for where it is copied as a whole. The kind is
// that of `words::Word`, a number of which the definition `token_code` speaks: no enum says which step comes next, here and in `rounds::enter`.
pub fn atom_at(
    text: &[u8],
    work: &mut [u16],
    h: Walk,
    place: u16,
    applied: bool,
    kind: u8,
    value: u8,
    start: usize,
    end: usize,
) -> Result<Walk, Refusal>
    requires { (CanAtom text.now work.old h (left_here h place applied)) × Looks text.now h.at (record { kind = kind; value = value; start = start; end = end }) }
    ensures { AtomSays text.now work.old h (left_here h place applied) (atom_entry text.now h.at) result work.new }
{
    let function = so_far(h, applied);
    let s = Left { place, function };
    if kind == ROUND {
        let l = crate::part_level(Form::Element as u16, s, 0, 0);
        return crate::ask(work, h, l, h.frame, h.top, h.waiting, end);
    }
    if kind == words::PART {
        let made = made_nodes::leaves::part(work, value as u16, start as u16)?;
        return behind_atom(work, h, s, made, end);
    }
    if kind == words::NAME {
        return named_at(text, work, h, s, start, end);
    }
    Err(Reason::OtherWordDue.at(start))
}

// Behind the function of an application: one more atom, or no more.
pub fn application_from(text: &[u8], work: &mut [u16], h: Walk) -> Result<Walk, Refusal>
    requires { CanApplication text.now work.old h }
    ensures { ApplicationSays text.now work.old h result work.new }
{
    let sub = h.sub;
    let w = looks::atom_word(text, work, h.at);
    if w.kind == 0 {
        return crate::done(h, Ok(sub), h.at);
    }
    atom_at(
        text, work, h, h.place, true, w.kind, w.value, w.start, w.end,
    )
}
