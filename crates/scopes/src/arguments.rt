// Numbers that are given as arguments of a name; refusals 33 and 34.
ghost use Rattle.words.specs.Lexed.{from, Lexed};
ghost use Rattle.clauses.specs.Numbers.{NumberThere};
ghost use Rattle.scopes.specs.Arguments.{NumbersKnown, ValueRead, NumbersGiven, CanGive};

use crate::entries;
use crate::frames::Frame;
use answers::{Reason, Refusal};

const MOST_ENTRIES: usize = 1024;

// A number's value, or why it has none; and the offset behind the number, in both cases.
#[derive(Clone, Copy)]
pub struct Value {
    pub value: Result<usize, Refusal>,
    pub end: usize,
}

// The value of k, n or n + k: 33, then 34, at its place.
pub fn value_at(text: &[u8], work: &[u16], at: usize, f: Frame) -> Value
    requires { (Lexed text.now at) × ((NumberThere (from text.now at)) × (NumbersKnown text.now work.now f)) }
    ensures { ValueRead text.now work.now f (from text.now at) result }
{
    let k = clauses::numbers::number_at(text, at);
    if !k.named {
        return Value {
            value: Ok(k.plus),
            end: k.end,
        };
    }
    let e = entries::first_of(text, work, k.place, f.numbers, f.variables);
    if e == f.variables {
        return Value {
            value: Err(Reason::UnknownName.at(k.place)),
            end: k.end,
        };
    }
    let v = entries::value_of(work, e);
    let n = v + k.plus;
    if 255 < n {
        return Value {
            value: Err(Reason::TextLimit.at(k.place)),
            end: k.end,
        };
    }
    Value {
        value: Ok(n),
        end: k.end,
    }
}

// The n numbers from an offset on, put on the scope from entry `top` on: 34 at the name's place where the scope is full.
pub fn numbers_given(
    text: &[u8],
    work: &mut [u16],
    start: usize,
    n: usize,
    name: usize,
    f: Frame,
    top: usize,
) -> Result<(), Refusal>
    requires { CanGive text.now work.old f start n top }
    ensures { NumbersGiven text.now work.old f start n name top work.new result }
{
    let mut p = start;
    for i in 0..n {
        if MOST_ENTRIES < top + i + 1 {
            return Err(Reason::TextLimit.at(name));
        }
        let w = words::word_at(text, p);
        let v = value_at(text, work, w.end, f);
        entries::bind(work, top + i, 0, v.value?);
        p = v.end;
    }
    Ok(())
}
