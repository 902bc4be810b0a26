// One record behind those that were read.
ghost use Rattle.std.specs.Prelude.{◌≡◌, ◌+◌, ◌≤◌, ◌<◌, length};
ghost use Rattle.net_reader.specs.Said.{said_record};
ghost use Rattle.calculus.specs.Terms.{part_at};
ghost use Rattle.foreign_calculus.specs.Foreign.{starts};
ghost use Rattle.foreign.specs.Take.{stage_of, said_taken, took_element, took_wire, took_pin, took};

use crate::table;
use answers::Reason;
use net_reader::Record;

// How far the records came.
#[derive(Clone, Copy, Debug, PartialEq, Eq)]
pub enum Stage {
    Elements,
    Wires,
    Pins,
}

// How far the records came, and the first terminal above those taken.
#[derive(Clone, Copy, Debug, PartialEq, Eq)]
pub struct State {
    pub stage: Stage,
    pub next: usize,
}

// An element may start here: at the next terminal, or in a lean netlist there or above.
fn starts_at(lean: bool, first: usize, next: usize) -> bool
    ensures { result ≡ starts lean first next }
{
    if lean { next <= first } else { first == next }
}

// `element`, `part` and `take` get `lean` beside the state: it stays the same for a whole netlist, and with it in the state each clause of a result
// would also have to say that it has not changed.
//
// An element, of some inputs and one output behind them.
fn element(
    work: &mut [u16],
    lean: bool,
    st: State,
    first: usize,
    inputs: usize,
    outputs: usize,
) -> Result<State, Reason>
    requires { (8192 ≤ length work.old) × (inputs ≤ 2) × (first < 65536) × (outputs ≡ 1) }
    ensures { said_taken result work.new ≡ took_element lean (stage_of st.stage) st.next first inputs work.old }
{
    if st.stage != Stage::Elements {
        return Err(Reason::BrokenRecord);
    }
    let past = first + inputs + outputs;
    if !starts_at(lean, first, st.next) {
        return Err(Reason::WrongTerminal);
    }
    if memory::TERMINALS < past {
        return Err(Reason::WrongTerminal);
    }
    table::place(work, first, inputs);
    Ok(State {
        stage: Stage::Elements,
        next: past,
    })
}

// A part, with the inputs and outputs that the table gives it.
fn part(work: &mut [u16], lean: bool, st: State, first: usize, p: u8) -> Result<State, Reason>
    requires { (8192 ≤ length work.old) × (first < 65536) }
    ensures { said_taken result work.new ≡ took_element lean (stage_of st.stage) st.next first (part_at p).inputs work.old }
{
    let entry = parts::part_of(p as u16);
    element(
        work,
        lean,
        st,
        first,
        entry.inputs as usize,
        entry.outputs as usize,
    )
}

fn wire(work: &mut [u16], st: State, from: usize, to: usize) -> Result<State, Reason>
    requires { 8192 ≤ length work.old }
    ensures { said_taken result work.new ≡ took_wire (stage_of st.stage) st.next from to work.old }
{
    if st.stage == Stage::Pins {
        return Err(Reason::BrokenRecord);
    }
    if table::cell(work, from) != table::OUTPUT {
        return Err(Reason::WrongTerminal);
    }
    let c = table::cell(work, to);
    if c == table::NOTHING {
        return Err(Reason::WrongTerminal);
    }
    if c == table::OUTPUT {
        return Err(Reason::WrongTerminal);
    }
    table::drive(work, to);
    Ok(State {
        stage: Stage::Wires,
        next: st.next,
    })
}

fn pin(work: &mut [u16], st: State, t: usize) -> Result<State, Reason>
    requires { 8192 ≤ length work.old }
    ensures { said_taken result work.new ≡ took_pin st.next t work.old }
{
    let c = table::cell(work, t);
    if c == table::NOTHING {
        return Err(Reason::WrongTerminal);
    }
    if c != table::OUTPUT {
        table::drive(work, t);
    }
    Ok(State {
        stage: Stage::Pins,
        next: st.next,
    })
}

// A record of any kind.
pub fn take(work: &mut [u16], lean: bool, st: State, r: Record) -> Result<State, Reason>
    requires { 8192 ≤ length work.old }
    ensures { said_taken result work.new ≡ took lean (stage_of st.stage) st.next (said_record r) work.old }
{
    match r {
        Record::Point(i) => element(work, lean, st, i as usize, 1, 1),
        Record::Part(p, first) => part(work, lean, st, first as usize, p),
        Record::Wire(from, to) => wire(work, st, from as usize, to as usize),
        Record::Pin(t) => pin(work, st, t as usize),
    }
}
