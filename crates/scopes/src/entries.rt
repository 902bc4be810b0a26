// Entries of names in scope: the place of a name, and a value.
ghost use Rattle.std.specs.Prelude.{◌≡◌, Bool, ◌+◌, ◌*◌, ◌-◌, ◌≤◌, ◌<◌, leb, length};
ghost use Rattle.notation_calculus.specs.Making.{most_entries};
ghost use Rattle.making_memory.specs.Map.{making_size};
ghost use Rattle.scopes.specs.Entries.{place_in, value_at, Places, first_named, last_named, last_placed, with_entry};

const MOST_ENTRIES: usize = 1024;

// So many more entries are no more than there may be.
pub fn has_room(top: usize, more: usize) -> bool
    requires { (top < 65536) × (more < 65536) }
    ensures { result ≡ leb (top + more) most_entries }
{
    top + more <= MOST_ENTRIES
}

// The place of an entry's name.
pub fn place_of(work: &[u16], entry: usize) -> usize
    requires { (entry < most_entries) × (making_size ≤ length work.now) }
    ensures { result ≡ place_in work.now entry }
{
    usize::from(work[making_memory::SCOPE + 2 * entry])
}

// .. and its value.
pub fn value_of(work: &[u16], entry: usize) -> usize
    requires { (entry < most_entries) × (making_size ≤ length work.now) }
    ensures { (result ≡ value_at work.now entry) × (result < 65536) }
{
    usize::from(work[making_memory::SCOPE + 2 * entry + 1])
}

// An entry is set: a name's place and its value.
pub fn bind(work: &mut [u16], entry: usize, place: usize, value: usize)
    requires { (entry < most_entries) × ((making_size ≤ length work.old) × ((place < 65536) × (value < 65536))) }
    ensures { work.new ≡ with_entry work.old entry place value }
{
    let at = making_memory::SCOPE + 2 * entry;
    work[at] = place as u16;
    work[at + 1] = value as u16;
}

// The two bounds, here, in `last_of` and in `last_at`, are fields of a `Frame` or the top of the scope, each read elsewhere alone: a `Range` of them would
// be made at each call, and is not `Copy`.
// The first entry of the name at a place between two; or the later of the two.
pub fn first_of(text: &[u8], work: &[u16], name: usize, from: usize, to: usize) -> usize
    requires { (Places text.now work.now from to) × ((from ≤ to) × (name ≤ length text.now)) }
    ensures { result ≡ first_named text.now work.now name from (to - from) }
{
    let long = words::same::long_of(text, name);
    for e in from..to {
        let p = place_of(work, e);
        if words::same::is_name(text, name, long, p) {
            return e;
        }
    }
    to
}

// Behind the last entry of the name at a place between two; or the earlier of the two.
pub fn last_of(text: &[u8], work: &[u16], name: usize, from: usize, to: usize) -> usize
    requires { (Places text.now work.now from to) × ((from ≤ to) × (name ≤ length text.now)) }
    ensures { result ≡ last_named text.now work.now name from (to - from) }
{
    let long = words::same::long_of(text, name);
    for e in (from..to).rev() {
        let p = place_of(work, e);
        if words::same::is_name(text, name, long, p) {
            return e + 1;
        }
    }
    from
}

// Behind the last entry with exactly this place between two; or the earlier of the two.
pub fn last_at(work: &[u16], place: usize, from: usize, to: usize) -> usize
    requires { (making_size ≤ length work.now) × ((to ≤ most_entries) × (from ≤ to)) }
    ensures { result ≡ last_placed work.now place from (to - from) }
{
    for e in (from..to).rev() {
        let p = place_of(work, e);
        if p == place {
            return e + 1;
        }
    }
    from
}
