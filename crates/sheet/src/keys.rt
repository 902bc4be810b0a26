// Keys of type records: a quick test that tells where no earlier record is the same.
ghost use Rattle.std.specs.Prelude.{◌≡◌, ◌||◌, ◌≤◌, replicate};
ghost use Rattle.records.specs.Forms.{said_form};
ghost use Rattle.sheet.specs.Keys.{mixed, key_of, among_first};

use records::Form;

// The bytes of a record of two sides, mixed into one number: the kind is one of them, as `mixed` has it.
fn mix(kind: u32, left: u8, right: u8) -> u16
    requires { kind ≤ 4 }
    ensures { result ≡ mixed kind left right }
{
    let n = 85 * kind + left as u32 + 256 * (right as u32);
    (n % 65536) as u16
}

// A number that records which are the same have in common.
pub fn key_of(f: Form) -> u16
    ensures { result ≡ key_of (said_form f) }
{
    match f {
        Form::Bit => 0,
        Form::Product(a, b) => mix(2, a, b),
        Form::Arrow(a, b) => mix(3, a, b),
        Form::Linear(a, b) => mix(4, a, b),
    }
}

pub fn no_keys() -> [u16; 256]
    ensures { result ≡ replicate 256 0 }
{
    [0u16; 256]
}

fn either(a: bool, b: bool) -> bool
    ensures { result ≡ (a || b) }
{
    if a {
        return true;
    }
    b
}

// One of the first `count` keys is this one. The array is of fixed size, and `Keyed` and `among_first` speak of it and of how many of its keys count.
// The loop has no way out before its end, so that the compiler compares several at once: for 256 types this is most of the reading.
pub fn among(keys: &[u16; 256], count: usize, key: u16) -> bool
    requires { count ≤ 256 }
    ensures { result ≡ among_first keys.now count key }
{
    let mut found = false;
    for t in 0..count {
        found = either(found, keys[t] == key);
    }
    found
}
