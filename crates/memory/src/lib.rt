// The map of the working memory, 32,768 numbers, and its clearing.
#![tactic(auto)]

ghost use Rattle.std.specs.Prelude.{◌≡◌, ◌≤◌, length};
ghost use Rattle.calculus.specs.Translate.{zeroed};
ghost use Rattle.memory.specs.Map.{memory_size};

// By input terminal, the output that drives it; NONE where no wire does. 8,192 numbers.
pub const DRIVERS: usize = 0;

// The wires' targets in making order. At most 5,461 of 5,632 numbers.
pub const TARGETS: usize = 8192;

// The elements' kinds in making order: a part's number, or POINT. At most 5,120 numbers.
pub const ELEMENTS: usize = 13824;

// The interfaces, one above the other, at most 128 numbers a level of depth; the pins at the end. 8,448 numbers.
pub const STACK: usize = 18944;

// By output terminal, its root: takes over the stack's room above the pins. 8,192 numbers.
pub const ROOTS: usize = 19072;

// For each binder in scope, the outermost first, two numbers: see the making walk. 256 numbers.
pub const BINDERS: usize = 27392;

// The nodes that made the elements, in making order, where they are wished. At most 5,120 numbers.
pub const MAKERS: usize = 27648;

pub const SIZE: usize = 32768;

pub const TERMINALS: usize = 8192;

pub const NONE: u16 = 65535;

pub const POINT: u16 = 7;

// The first 32,768 numbers are 0 afterwards, and the later ones as they were.
pub fn clear(work: &mut [u16])
    requires { memory_size ≤ length work.old }
    ensures { work.new ≡ zeroed memory_size work.old }
{
    work[..SIZE].fill(0);
}
