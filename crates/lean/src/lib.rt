// The roots of a netlist's outputs, in linear time, and the lean netlist.
#![tactic(auto)]

ghost use Rattle.std.specs.Prelude.{◌≡◌, ◌≤◌, length, drop};
ghost use Rattle.std.proofs.lemmas.List.Edits.{sets};
ghost use Rattle.calculus.specs.Makers.{written};
ghost use Rattle.calculus.specs.NetRead.{Known};
ghost use Rattle.calculus.specs.Record.{All};
ghost use Rattle.memory.specs.Map.{elements_at, makers_at, region, net_in, Ready};
ghost use Rattle.netlist.specs.Elements.{after_all};
ghost use Rattle.lean.specs.Layout.{lean_in, lean_makers_in, LeanReady, Leant};
ghost use Rattle.lean.specs.Table.{Rooted};

mod pass;
mod put;
mod table;

use put::Writer;
use table::Full;

// The lean netlist by terminal: where it stands, and what its numbers say.
pub use pass::{KIND, LEAN, LEFT_OUT, PINS, behind, first_of};

// The root of every output; the first terminal that no element takes.
pub fn roots(work: &mut [u16], elements: usize, wires: usize, pins: usize) -> u16
    requires { Ready work.old elements wires pins }
    ensures { (result ≡ after_all (region work.old elements_at elements) 0) × Rooted work.old work.new elements wires pins }
{
    table::blank(work);
    let end = table::start(work, elements);
    let full = Full {
        elements,
        wires,
        pins,
    };
    for n in 0..end {
        table::root_one(work, full, n);
    }
    end
}

// The lean netlist by terminal, of the full one that stands in the working memory, which stays; the first terminal that no element takes.
pub fn make_lean(work: &mut [u16], elements: usize, wires: usize, pins: usize) -> usize
    requires { (Ready work.old elements wires pins) × (All Known (net_in work.old elements wires pins).elements) }
    ensures { Leant work.old elements wires pins work.new result }
{
    let end = roots(work, elements, wires, pins);
    pass::root_pins(work, pins);
    pass::link(work, end);
    pass::name(work, elements);
    end as usize
}

// The length of the lean netlist that stands in the working memory by terminal, with its makers where they are wished.
pub fn lean_length(work: &[u16], end: usize, pins: usize, plain: bool) -> usize
    requires { LeanReady work.now end pins }
    ensures { result ≡ length (written plain (lean_in work.now end pins) (lean_makers_in work.now end 0 (drop makers_at work.now))) }
{
    let writer = Writer {
        work,
        end,
        pins,
        plain,
    };
    writer.size() + 3 * pins
}

// Its bytes, from the start of the output; their number.
pub fn write_lean(work: &[u16], out: &mut [u8], end: usize, pins: usize, plain: bool) -> usize
    requires { LeanReady work.now end pins × (length (written plain (lean_in work.now end pins) (lean_makers_in work.now end 0 (drop makers_at work.now))) ≤ length out.old) }
    ensures { (result ≡ length (written plain (lean_in work.now end pins) (lean_makers_in work.now end 0 (drop makers_at work.now))))
        × (out.new ≡ sets out.old 0 (written plain (lean_in work.now end pins) (lean_makers_in work.now end 0 (drop makers_at work.now)))) }
{
    let writer = Writer {
        work,
        end,
        pins,
        plain,
    };
    let first = writer.put_elements(out, 0);
    let second = writer.put_wires(out, first);
    writer.put_pins(out, second)
}
