// The lean netlist of the full one that stands in the working memory, put in order. What stands where is said in trace_steps/specs/Map.
ghost use Rattle.calculus.specs.NetRead.{Known};
ghost use Rattle.calculus.specs.Record.{All};
ghost use Rattle.memory.specs.Map.{net_in, Ready};
ghost use Rattle.trace.specs.Ordering.{PutInOrder};

use crate::tables;
use answers::{Reason, Refusal};
use trace_rings::{list, ring};
use trace_steps::order;

// A netlist in order: the first terminal that no element takes, how many outputs stand in the order, and how many pins there are.
#[derive(Clone, Copy)]
pub struct Order {
    pub end: usize,
    pub settled: usize,
    pub pins: usize,
}

// The lean netlist is made and put in order, or refused with 19 at the lowest input on a ring that passes through no register.
pub fn put_in_order(
    work: &mut [u16],
    elements: usize,
    wires: usize,
    pins: usize,
) -> Result<Order, Refusal>
    requires { (Ready work.old elements wires pins) × (All Known (net_in work.old elements wires pins).elements) }
    ensures { PutInOrder work.old elements wires pins work.new result }
{
    let end = tables::make(work, elements, wires, pins);
    let settled = list::list(work, end);
    order::mark_free(work, end);
    let left = order::settle(work, settled);
    if left > 0 {
        let place = ring::lowest(work, left);
        return Err(Reason::RingWithoutRegister.at(place));
    }
    Ok(Order { end, settled, pins })
}
