// A clause is opened: the arguments that wait get the names of its parameters, and a frame has what it knows.
ghost use Rattle.scopes.specs.Opened.{CanOpen, Opened};

use crate::frames::Frame;
use crate::{frames, named};

pub fn open(text: &[u8], work: &mut [u16], k: usize, frame: usize, top: usize)
    requires { CanOpen text.now work.old k frame top }
    ensures { Opened text.now work.old k frame top work.new }
{
    let c = clauses::rows::row_at(work, k);
    let seen = clauses::meant::seen_by(text, work, k);
    let numbers = top + c.types;
    named::name_types(text, work, c.typed, c.types, top);
    named::name_numbers(text, work, c.numbered, c.numbers, numbers);
    let f = Frame {
        seen,
        types: top,
        numbers,
        variables: numbers + c.numbers,
    };
    frames::set_frame(work, frame, f);
}
