// Definitions without parameters are judged, also those that `main` does not reach: each is made, and what it costs is all that is left of it.
ghost use Rattle.std.specs.Prelude.{◌≡◌, true, false, ◌≤◌, length};
ghost use Rattle.maker.specs.Judged.{row_judged, CanTry, TrySays, TriedSays, HasClause, JudgeSays, SomeText, JudgedSay};

use crate::lines;
use answers::{Reason, Refusal};
use clauses::rows;
use clauses::rows::Row;
use putting::mains;
use scopes::puts;
use term_walk::rounds::term_from;
use type_walk::type_from;

// It has no parameters, and is not `main`.
fn is_judged(text: &[u8], r: Row) -> bool
    requires { r.name ≤ length text.now }
    ensures { result ≡ row_judged text.now r }
{
    if r.types != 0 {
        return false;
    }
    if r.numbers != 0 {
        return false;
    }
    if r.sort {
        return true;
    }
    !mains::named_main(text, r.name)
}

// The body of a definition: a type is worked out. The functions from here to `tried`, and those of `lines`, share a text, the memory
// and an offset: two borrows and a number, which a struct would only lend again.
fn type_body(text: &[u8], work: &mut [u16], at: usize) -> Result<(), Refusal>
    requires { CanTry text.now work.old at true }
    ensures { TrySays text.now work.old at true result work.new }
{
    type_from(text, work, at, 80, 81, 0)?;
    Ok(())
}

// .. a term is made.
fn term_body(text: &[u8], work: &mut [u16], at: usize) -> Result<(), Refusal>
    requires { CanTry text.now work.old at false }
    ensures { TrySays text.now work.old at false result work.new }
{
    term_from(text, work, at, 80, 81, 0)?;
    Ok(())
}

fn body(text: &[u8], work: &mut [u16], at: usize, sort: bool) -> Result<(), Refusal>
    requires { CanTry text.now work.old at sort }
    ensures { TrySays text.now work.old at sort result work.new }
{
    if sort {
        return type_body(text, work, at);
    }
    term_body(text, work, at)
}

// .. is made and forgotten.
fn tried(text: &[u8], work: &mut [u16], at: usize, sort: bool) -> Result<(), Refusal>
    requires { CanTry text.now work.old at sort }
    ensures { TriedSays text.now work.old at sort result work.new }
{
    let types = work[making_memory::TYPE_COUNT];
    let nodes = work[making_memory::NODE_COUNT];
    body(text, work, at, sort)?;
    made_types::forget(work, types, nodes);
    Ok(())
}

// Clause number k.
fn judge(text: &[u8], work: &mut [u16], k: usize) -> Result<(), Refusal>
    requires { HasClause text.now work.old k }
    ensures { JudgeSays text.now work.old k result work.new }
{
    let r = rows::row_at(work, k);
    if !is_judged(text, r) {
        return Ok(());
    }
    let cost = puts::cost_of(text, r);
    if !puts::count_put(work, cost) {
        return Err(Reason::TextLimit.at(r.name));
    }
    lines::know(work, k);
    tried(text, work, r.body, r.sort)
}

// All clauses, in the order of the text.
pub fn judged(text: &[u8], work: &mut [u16]) -> Result<(), Refusal>
    requires { SomeText text.now work.old }
    ensures { JudgedSay text.now work.old result work.new }
{
    let n = usize::from(work[making_memory::CLAUSE_COUNT]);
    for k in 0..n {
        judge(text, work, k)?;
    }
    Ok(())
}
