// A table by terminal, in the working memory from 0 on. An input with one driver stands between INPUT and MANY, as 2.
ghost use Rattle.std.specs.Prelude.{◌≡◌, ℕ, ◌+◌, ◌%◌, ◌≤◌, ◌<◌, length, get_or, IfNone, IfSome};
ghost use Rattle.std.proofs.lemmas.List.Edits.{sets};
ghost use Rattle.calculus.specs.Translate.{zeroed};
ghost use Rattle.foreign.specs.Table.{cells_of, driven, cell_at};

pub const NOTHING: u16 = 0;

// An input without a driver.
pub const INPUT: u16 = 1;

// An input with more than one driver.
pub const MANY: u16 = 3;

pub const OUTPUT: u16 = 4;

// The table is clear afterwards.
pub fn blank(work: &mut [u16])
    requires { 8192 ≤ length work.old }
    ensures { work.new ≡ zeroed 8192 work.old }
{
    work[..memory::TERMINALS].fill(NOTHING);
}

// An element of some inputs, and one output behind them.
pub fn place(work: &mut [u16], first: usize, inputs: usize)
    requires { (inputs ≤ 2) × (first + inputs < length work.old) }
    ensures { work.new ≡ sets work.old first (cells_of inputs) }
{
    work[first..first + inputs].fill(INPUT);
    work[first + inputs] = OUTPUT;
}

// One driver more for an input.
pub fn drive(work: &mut [u16], i: usize)
    requires { i < length work.old }
    ensures { work.new ≡ driven work.old i }
{
    if work[i] < MANY {
        work[i] += 1;
    }
}

// The number at a terminal; 0 where there can be none.
pub fn cell(work: &[u16], i: usize) -> u16
    requires { 8192 ≤ length work.now }
    ensures { result ≡ cell_at work.now i }
{
    if i < memory::TERMINALS {
        work[i]
    } else {
        NOTHING
    }
}

// The lowest of some terminals that is an input and has not exactly one driver.
pub fn undriven(work: &[u16], next: usize) -> Option<usize>
    requires { next ≤ length work.now }
    ensures none { IfNone result ((k : ℕ) → k < next → get_or work.now k 0 % 2 ≡ 1 → ⊥) }
    ensures some { IfSome result (λ i. (i < next) × ((k : ℕ) → k < i → get_or work.now k 0 % 2 ≡ 1 → ⊥) × (get_or work.now i 0 % 2 ≡ 1)) }
{
    work[..next].iter().position(|cell| *cell % 2 == 1)
}
