// Parameters in brackets behind a name, read again where the grammar has read them once.
ghost use Rattle.std.specs.Prelude.{◌≡◌, ◌<◌};
ghost use Rattle.words.specs.Lexed.{Lexed};
ghost use Rattle.clauses.specs.Groups.{leaves_group, counted_by, GroupRead};

const COMMA: u8 = 14;

const END_SQUARE: u8 = 18;

const END_CURLY: u8 = 20;

// How many stand in a group, and the offset behind it.
#[derive(Clone, Copy)]
pub struct Group {
    pub count: usize,
    pub end: usize,
}

// A word that ends a group: a closing bracket, or the text's end.
// A word's kind stays a number, here and in `counted`: `leaves_group` and `counted_by` are defined over the numbers that `token_code` gives.
fn leaves(kind: u8) -> bool
    ensures { result ≡ leaves_group kind }
{
    if kind == 0 {
        return true;
    }
    if kind == END_SQUARE {
        return true;
    }
    kind == END_CURLY
}

// One more behind a comma that ends at an offset.
fn counted(kind: u8, count: usize, end: usize) -> usize
    requires { count < end }
    ensures { result ≡ counted_by kind count }
{
    if kind == COMMA {
        return count + 1;
    }
    count
}

// The group that opens at an offset with the sign of a code: [ or {; or none.
pub fn group_at(text: &[u8], start: usize, opens: u8) -> Group
    requires { (Lexed text.now start) × (0 < opens) }
    ensures { GroupRead text.now start opens result }
{
    let w = words::word_at(text, start);
    if w.kind != opens {
        return Group {
            count: 0,
            end: start,
        };
    }
    let mut count: usize = 1;
    let mut at = w.end;
    let mut v = words::word_at(text, at);
    while !leaves(v.kind) {
        count = counted(v.kind, count, v.end);
        at = v.end;
        v = words::word_at(text, at);
    }
    if v.kind == 0 {
        return Group { count, end: at };
    }
    Group { count, end: v.end }
}
