// The binders in scope: a struct by value, the nearest last. Binders of both sorts share one count.
// The struct is large, and a level of the walk has little stack: so these are functions of the numbers of one binder and no methods, and
// who holds the struct stores in place.
#![tactic(auto)]

ghost use Rattle.std.specs.Prelude.{◌≡◌, ◌<◌, get_or};
ghost use Rattle.binders.specs.Stacks.{binary_digits, set_digit, bits_of, with_bit, binder_of, no_binders, slot_of, shared_use, linear_use};

use answers::Reason;

// For each binder in scope its type number, its sort (0 sharable, 1 linear), and for a linear one if it is used (0 or 1): sorts and
// marks are a bit each, so that a level of the walk takes little stack. The count stands beside the arrays, since there is no heap, and
// the definitions (`no_binders`, `stack_of`) and the walk, which stores in place, speak of these fields.
#[derive(Clone, Copy, Debug, PartialEq, Eq)]
pub struct Binders {
    pub types: [u8; 128],
    pub sorts: [u64; 2],
    pub used: [u64; 2],
    pub count: usize,
}

// No binder is in scope.
pub fn none() -> Binders
    ensures { result ≡ no_binders }
{
    Binders {
        types: [0u8; 128],
        sorts: [0u64; 2],
        used: [0u64; 2],
        count: 0,
    }
}

// Where binder i of `count` stands in the arrays; 0 if it is not in scope.
pub fn slot(count: usize, i: usize) -> usize
    ensures { result ≡ slot_of count i }
{
    if i < count { count - 1 - i } else { 0 }
}

// A sharable variable is used, binder i of `count`, by its type and sort: its type, or refusal 10 or 11.
// The sort is a number here and in `use_linear`: it is a bit of `sorts`, and `binder_of` takes any number but 0 for linear.
pub fn use_shared(count: usize, i: usize, ty: u8, sort: u8) -> Result<u8, Reason>
    ensures { result ≡ shared_use count i (binder_of ty sort 0) }
{
    if count <= i {
        return Err(Reason::NotInScope);
    }
    if sort != 0 {
        return Err(Reason::OtherSort);
    }
    Ok(ty)
}

// A linear variable is used, binder i of `count`, by its type, sort and mark: its type, or refusal 10, 11 or 13. The caller marks it.
pub fn use_linear(count: usize, i: usize, ty: u8, sort: u8, mark: u8) -> Result<u8, Reason>
    ensures { result ≡ linear_use count i (binder_of ty sort mark) }
{
    if count <= i {
        return Err(Reason::NotInScope);
    }
    if sort == 0 {
        return Err(Reason::OtherSort);
    }
    if mark != 0 {
        return Err(Reason::UsedAgain);
    }
    Ok(ty)
}

// ---- sorts and marks, a bit each

// Bit j of a word.
fn digit(word: u64, j: usize) -> u8
    requires { j < 64 }
    ensures { result ≡ get_or (binary_digits 64 word) j 0 }
{
    ((word >> j) % 2) as u8
}

// A word whose bit j is x.
fn with_digit(word: u64, j: usize, x: u8) -> u64
    requires { (j < 64) × (x < 2) }
    ensures { result ≡ set_digit j word x }
{
    let old = (word >> j) % 2;
    let rest = word - (old << j);
    rest + ((x as u64) << j)
}

// Bit k of two words.
pub fn bit(words: [u64; 2], k: usize) -> u8
    requires { k < 128 }
    ensures { result ≡ get_or (bits_of words) k 0 }
{
    let low = words[0];
    let high = words[1];
    if k < 64 {
        digit(low, k)
    } else {
        digit(high, k - 64)
    }
}

// Two words whose bit k is x.
pub fn with_bit(words: [u64; 2], k: usize, x: u8) -> [u64; 2]
    requires { (k < 128) × (x < 2) }
    ensures { result ≡ with_bit words k x }
{
    let low = words[0];
    let high = words[1];
    if k < 64 {
        [with_digit(low, k, x), high]
    } else {
        [low, with_digit(high, k - 64, x)]
    }
}
