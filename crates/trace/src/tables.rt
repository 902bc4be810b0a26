// The lean netlist, made of the full one, as the table by terminal of a run and its pins.
ghost use Rattle.calculus.specs.NetRead.{Known};
ghost use Rattle.calculus.specs.Record.{All};
ghost use Rattle.memory.specs.Map.{net_in, Ready};
ghost use Rattle.trace.specs.Said.{TablesMade};

use trace_steps::copy;

// The first terminal that no element takes.
pub fn make(work: &mut [u16], elements: usize, wires: usize, pins: usize) -> usize
    requires { (Ready work.old elements wires pins) × (All Known (net_in work.old elements wires pins).elements) }
    ensures { TablesMade work.old elements wires pins work.new result }
{
    let end = lean::make_lean(work, elements, wires, pins);
    copy::copy_table(work, end);
    copy::copy_pins(work, pins);
    end
}
