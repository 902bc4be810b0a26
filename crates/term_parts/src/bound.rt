// Names bound as variables, as entries of the scope.
ghost use Rattle.std.specs.Prelude.{◌≤◌, ◌<◌, length};
ghost use Rattle.notation_calculus.specs.Making.{most_entries};
ghost use Rattle.making_memory.specs.Map.{making_size};
ghost use Rattle.term_parts.specs.Parts.{NameBound, CanBind, NamesBound};

use scopes::entries;

// The name or the list at a place, bound with a type.
pub fn bind_name(work: &mut [u16], top: usize, place: usize, ty: u16)
    requires { (top < most_entries) × ((making_size ≤ length work.old) × (place < 65536)) }
    ensures { NameBound work.old top place ty work.new }
{
    entries::bind(work, top, place, usize::from(ty));
}

// The names of `fun` at an offset, each bound with one type. Text, memory, offset, count and entry come one by one, as in `apart::apart`: each is called
// from one place of term_walk, which has the entry apart from the names, so that a struct would be made for one call.
pub fn bind_names(text: &[u8], work: &mut [u16], at: usize, count: usize, top: usize, ty: u16)
    requires { CanBind text.now work.old at count top }
    ensures { NamesBound text.now work.old at count top ty work.new }
{
    let mut p = at;
    for i in 0..count {
        let x = crate::names::name_at(text, p).unwrap();
        bind_name(work, top + i, x.place, ty);
        p = x.end;
    }
}
