// Variables looked up by their names, or by the places of their lists.
ghost use Rattle.term_parts.specs.Parts.{CanLook, LookSays, CanLookAt, LookAtSays};

use scopes::{entries, frames};

// A variable's number and its type.
#[derive(Clone, Copy)]
pub struct Look {
    pub number: u16,
    pub ty: u16,
}

// The nearest variable of the name at a place.
pub fn variable_at(text: &[u8], work: &[u16], name: usize, frame: usize, top: usize) -> Option<Look>
    requires { CanLook text.now work.now name frame top }
    ensures { LookSays text.now work.now name frame top result }
{
    let f = frames::frame_at(work, frame);
    let e = entries::last_of(text, work, name, f.variables, top);
    if e <= f.variables {
        return None;
    }
    let v = entries::value_of(work, e - 1);
    Some(Look {
        number: (top - e) as u16,
        ty: v as u16,
    })
}

// The nameless variable of the list whose parenthesis stands at a place.
pub fn list_at(work: &[u16], place: usize, frame: usize, top: usize) -> Option<Look>
    requires { CanLookAt work.now frame top }
    ensures { LookAtSays work.now place frame top result }
{
    let f = frames::frame_at(work, frame);
    let e = entries::last_at(work, place, f.variables, top);
    if e <= f.variables {
        return None;
    }
    let v = entries::value_of(work, e - 1);
    Some(Look {
        number: (top - e) as u16,
        ty: v as u16,
    })
}
