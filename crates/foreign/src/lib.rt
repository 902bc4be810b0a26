// The check of a netlist from outside (document 02, L8).
#![tactic(auto)]

mod table;
mod take;

ghost use Rattle.std.specs.Prelude.{◌≡◌, ◌≤◌, ◌<◌, length};
ghost use Rattle.foreign_calculus.specs.Foreign.{begin, read_on, check as check_of, check_call};
ghost use Rattle.foreign.specs.Table.{LaterKept, TableClear};
ghost use Rattle.foreign.specs.Walk.{WalkAgrees, said_check, called_check};

use answers::{Reason, Refusal};
use take::{Stage, State};

// `check`, `judge` and `walk` take the netlist, the working memory and `lean` one by one: the memory is changed, and the clauses speak of the
// three, so a struct of them would be taken apart in every clause.
//
// All records in byte order, as the reader hands them out, over a table that is clear: the first terminal above those taken.
fn walk(net: &[u8], work: &mut [u16], lean: bool) -> Result<usize, Refusal>
    requires { TableClear work.old }
    ensures { WalkAgrees result work.new (read_on (length net.now) lean net.now 0 begin) × LaterKept work.old work.new }
{
    let mut st = State {
        stage: Stage::Elements,
        next: 0,
    };
    let mut at: usize = 0;
    while let Some(step) = net_reader::read(net, at)? {
        st = take::take(work, lean, st, step.found).map_err(|reason| reason.at(at))?;
        at = step.past;
    }
    Ok(st.next)
}

// 21 and 22 in byte order, then 23, over a table that is clear.
fn judge(net: &[u8], work: &mut [u16], lean: bool) -> Result<(), Refusal>
    requires { TableClear work.old }
    ensures { (said_check result ≡ check_of lean net.now) × LaterKept work.old work.new }
{
    let next = walk(net, work, lean)?;
    match table::undriven(work, next) {
        Some(i) => Err(Reason::NotDrivenOnce.at(i)),
        None => Ok(()),
    }
}

// A netlist from outside is accepted or refused.
pub fn check(net: &[u8], work: &mut [u16], lean: bool) -> Result<(), Refusal>
    ensures { called_check result work.new ≡ check_call lean net.now work.old }
{
    if work.len() < memory::SIZE {
        return Err(Reason::LittleMemory.at(0));
    }
    table::blank(work);
    let r = judge(net, work, lean);
    memory::clear(work);
    r
}
