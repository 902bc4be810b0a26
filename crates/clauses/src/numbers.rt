// k, n or n + k, read again where the grammar has read them once.
ghost use Rattle.std.specs.Prelude.{◌≡◌, ◌≤◌};
ghost use Rattle.notation_calculus.specs.Grammar.{behind, covers, cover_all};
ghost use Rattle.words.specs.Lexed.{from, Lexed, Onward};
ghost use Rattle.clauses.specs.Numbers.{NumberThere, NumberRead, NumberPast, plain_number, numbers_from, NumbersThere};

const PLUS: u8 = 21;

// If it has a name, the name's place or the number's, k, and the offset behind it: the fields of `Number` in notation_calculus, and each has a meaning
// with a name and without, so it is no enum.
#[derive(Clone, Copy)]
pub struct Num {
    pub named: bool,
    pub place: usize,
    pub plus: usize,
    pub end: usize,
}

pub fn number_at(text: &[u8], at: usize) -> Num
    requires { (Lexed text.now at) × (NumberThere (from text.now at)) }
    ensures { NumberRead text.now (from text.now at) result }
{
    let w = words::word_at(text, at);
    if w.kind != words::NAME {
        return Num {
            named: false,
            place: w.start,
            plus: usize::from(w.value),
            end: w.end,
        };
    }
    let p = words::marks::mark_at(text, w.end);
    if p.kind != PLUS {
        return Num {
            named: true,
            place: w.start,
            plus: 0,
            end: w.end,
        };
    }
    let k = words::word_at(text, p.end);
    Num {
        named: true,
        place: w.start,
        plus: usize::from(k.value),
        end: k.end,
    }
}

// .. behind one word: an opening bracket, or a comma.
pub fn number_behind(text: &[u8], at: usize) -> Num
    requires { (Lexed text.now at) × (NumberThere (behind (from text.now at))) }
    ensures { NumberRead text.now (behind (from text.now at)) result }
{
    let w = words::word_at(text, at);
    number_at(text, w.end)
}

// Behind the opening bracket at an offset, where the first number of a list stands.
pub fn first_at(text: &[u8], at: usize) -> usize
    requires { Lexed text.now at }
    ensures { NumberThere (behind (from text.now at)) → Onward text.now at result }
{
    let w = words::word_at(text, at);
    w.end
}

// The number at an offset, and the offset behind the word that follows it, a comma or the closing bracket. That word is read to look for a plus; so a list is
// read with each word once, where `number_behind` reads each comma twice.
pub fn number_past(text: &[u8], at: usize) -> Num
    requires { (Lexed text.now at) × (NumberThere (from text.now at)) }
    ensures { NumberPast text.now (from text.now at) result }
{
    let w = words::word_at(text, at);
    let p = words::word_here(text, w.end);
    if w.kind != words::NAME {
        return Num {
            named: false,
            place: w.start,
            plus: usize::from(w.value),
            end: p.end,
        };
    }
    if p.kind != PLUS {
        return Num {
            named: true,
            place: w.start,
            plus: 0,
            end: p.end,
        };
    }
    let k = words::word_at(text, p.end);
    let plus = usize::from(k.value);
    let c = words::word_here(text, k.end);
    Num {
        named: true,
        place: w.start,
        plus,
        end: c.end,
    }
}

// An earlier parameter fits all that a later one fits.
fn covers(p: Num, q: Num) -> bool
    ensures { result ≡ covers (plain_number p) (plain_number q) }
{
    if p.named {
        return p.plus <= q.plus;
    }
    if q.named {
        return false;
    }
    p.plus == q.plus
}

// Of two lists of n numbers, each of the first covers the one of the second.
pub fn cover_all(text: &[u8], a: usize, b: usize, n: usize) -> bool
    requires { (NumbersThere text.now a n) × (NumbersThere text.now b n) }
    ensures { result ≡ cover_all (numbers_from text.now a n) (numbers_from text.now b n) }
{
    let mut p = a;
    let mut q = b;
    for _ in 0..n {
        let x = number_behind(text, p);
        let y = number_behind(text, q);
        if !covers(x, y) {
            return false;
        }
        p = x.end;
        q = y.end;
    }
    true
}
