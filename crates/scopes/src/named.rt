// Arguments that wait in the scope get the names of a clause's parameters.
ghost use Rattle.std.specs.Prelude.{◌≡◌, cond, ◌-◌, ◌<◌, length};
ghost use Rattle.notation_calculus.specs.Making.{bind_types, bind_numbers};
ghost use Rattle.clauses.specs.Numbers.{numbers_from, NumbersThere};
ghost use Rattle.clauses.specs.Meant.{values_in};
ghost use Rattle.scopes.specs.Named.{bound_from, NamesThere, CanName, EntriesNamed};

use crate::entries;
use clauses::numbers;
use clauses::numbers::Num;

// Text, memory and a count stay parameters, here, in `name_numbers` and in `arguments::numbers_given`: the text is only read, and a struct with the memory
// that is written would need a clause that the text is as it was.
// The n type parameters at an offset name the entries from one on.
pub fn name_types(text: &[u8], work: &mut [u16], at: usize, n: usize, first: usize)
    requires { (NamesThere text.now at n) × (CanName text.now work.old first n) }
    ensures { EntriesNamed text.now work.old first n work.new (bind_types (bound_from text.now at n) (values_in work.old first n)) }
{
    let mut p = at;
    for i in 0..n {
        let b = words::word_at(text, p);
        let w = words::word_at(text, b.end);
        let v = entries::value_of(work, first + i);
        entries::bind(work, first + i, w.start, v);
        p = w.end;
    }
}

// The place of a parameter's name; of a number alone, the text's length.
fn place_for(text: &[u8], k: Num) -> usize
    ensures { result ≡ cond k.named k.place (length text.now) }
{
    if k.named {
        return k.place;
    }
    text.len()
}

// What is left of a value over n + k; of a number alone, the value.
fn value_for(k: Num, v: usize) -> usize
    ensures { result ≡ cond k.named (v - k.plus) v }
{
    if !k.named {
        return v;
    }
    if v < k.plus {
        return 0;
    }
    v - k.plus
}

// The n number parameters at an offset name the entries from one on.
pub fn name_numbers(text: &[u8], work: &mut [u16], at: usize, n: usize, first: usize)
    requires { (NumbersThere text.now at n) × (CanName text.now work.old first n) }
    ensures { EntriesNamed text.now work.old first n work.new (bind_numbers (numbers_from text.now at n) (values_in work.old first n)) }
{
    let mut p = at;
    for i in 0..n {
        let k = numbers::number_behind(text, p);
        let v = entries::value_of(work, first + i);
        let place = place_for(text, k);
        let value = value_for(k, v);
        entries::bind(work, first + i, place, value);
        p = k.end;
    }
}
