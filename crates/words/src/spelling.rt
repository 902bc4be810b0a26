// Spellings of reserved words and signs, each told by its bytes as one number.
ghost use Rattle.std.specs.Prelude.{◌≡◌, true, false, ◌+◌, ◌≤◌, ◌<◌, length, get_or, take, drop};
ghost use Rattle.notation_calculus.specs.Words.{reserved, signs};
ghost use Rattle.words.specs.Classes.{NoSingle};
ghost use Rattle.words.specs.Keys.{key_of};
ghost use Rattle.words.specs.Tables.{said_row, row_of, two_signs, three_signs};

// A row: its token's code and value, and the spelling's length; 0 where no row fits.
// The code is a number, here and in `as_row`, as in `Word`: `row_of` gives it by `token_code`.
#[derive(Clone, Copy)]
pub struct Row {
    pub kind: u8,
    pub value: u8,
    pub long: usize,
}

fn as_row(kind: u8, value: u8, long: usize) -> Row
    ensures { said_row result ≡ record { code = kind; value = value; long = long } }
{
    Row { kind, value, long }
}

// The bytes of a part of the text as one number, so that a reserved word is told by one look: a table of them would be written to the stack at
// each call.
pub fn key2(text: &[u8], at: usize) -> usize
    requires { at + 2 ≤ length text.now }
    ensures { (result ≡ key_of (take 2 (drop at text.now))) × (result < 65536) }
{
    usize::from(text[at]) * 256 + usize::from(text[at + 1])
}

fn key3(text: &[u8], at: usize) -> usize
    requires { at + 3 ≤ length text.now }
    ensures { (result ≡ key_of (take 3 (drop at text.now))) × (result < 16777216) }
{
    key2(text, at) * 256 + usize::from(text[at + 2])
}

pub fn key4(text: &[u8], at: usize) -> usize
    requires { at + 4 ≤ length text.now }
    ensures { (result ≡ key_of (take 4 (drop at text.now))) × (result < 4294967296) }
{
    key3(text, at) * 256 + usize::from(text[at + 3])
}

fn key5(text: &[u8], at: usize) -> usize
    requires { at + 5 ≤ length text.now }
    ensures { (result ≡ key_of (take 5 (drop at text.now))) × (result < 1099511627776) }
{
    key4(text, at) * 256 + usize::from(text[at + 4])
}

fn key6(text: &[u8], at: usize) -> usize
    requires { at + 6 ≤ length text.now }
    ensures { (result ≡ key_of (take 6 (drop at text.now))) × (result < 281474976710656) }
{
    key5(text, at) * 256 + usize::from(text[at + 5])
}

fn key7(text: &[u8], at: usize) -> usize
    requires { at + 7 ≤ length text.now }
    ensures { (result ≡ key_of (take 7 (drop at text.now))) × (result < 72057594037927936) }
{
    key6(text, at) * 256 + usize::from(text[at + 6])
}

pub fn key8(text: &[u8], at: usize) -> usize
    requires { at + 8 ≤ length text.now }
    ensures { result ≡ key_of (take 8 (drop at text.now)) }
{
    key7(text, at) * 256 + usize::from(text[at + 7])
}

// The reserved word of so many bytes: of each length by the bytes as one number.
pub fn reserved_row(text: &[u8], at: usize, long: usize) -> Row
    requires { at + long ≤ length text.now }
    ensures { said_row result ≡ row_of true long (drop at text.now) reserved }
{
    match long {
        // in, or
        2 => match key2(text, at) {
            26990 => as_row(4, 0, 2),
            28530 => as_row(22, 3, 2),
            _ => as_row(0, 0, 0),
        },
        // fun, fix, let, reg, and, xor, inv, one
        3 => match key3(text, at) {
            6714734 => as_row(1, 0, 3),
            6711672 => as_row(2, 0, 3),
            7103860 => as_row(3, 0, 3),
            7497063 => as_row(22, 1, 3),
            6385252 => as_row(22, 2, 3),
            7892850 => as_row(22, 4, 3),
            6909558 => as_row(22, 5, 3),
            7302757 => as_row(22, 6, 3),
            _ => as_row(0, 0, 0),
        },
        // type, zero
        4 => match key4(text, at) {
            1954115685 => as_row(5, 0, 4),
            2053468783 => as_row(22, 0, 4),
            _ => as_row(0, 0, 0),
        },
        // table
        5 => match key5(text, at) {
            499850046565 => as_row(7, 0, 5),
            _ => as_row(0, 0, 0),
        },
        // edition
        7 => match key7(text, at) {
            28539376735186798 => as_row(6, 0, 7),
            _ => as_row(0, 0, 0),
        },
        _ => as_row(0, 0, 0),
    }
}

// ->, -o, λ and ×.
fn sign2(text: &[u8], at: usize) -> Row
    requires { at + 2 ≤ length text.now }
    ensures { said_row result ≡ row_of true 2 (drop at text.now) two_signs }
{
    match key2(text, at) {
        11582 => as_row(8, 0, 2),
        11631 => as_row(9, 0, 2),
        52923 => as_row(1, 0, 2),
        50071 => as_row(10, 0, 2),
        _ => as_row(0, 0, 0),
    }
}

// → and ⊸.
fn sign3(text: &[u8], at: usize) -> Row
    requires { at + 3 ≤ length text.now }
    ensures { said_row result ≡ row_of true 3 (drop at text.now) three_signs }
{
    match key3(text, at) {
        14845586 => as_row(8, 0, 3),
        14846648 => as_row(9, 0, 3),
        _ => as_row(0, 0, 0),
    }
}

// The sign that begins with a byte that is none by itself.
pub fn sign_row(text: &[u8], at: usize) -> Row
    requires { (at < length text.now) × NoSingle (get_or text.now at 0) }
    ensures { said_row result ≡ row_of false 0 (drop at text.now) signs }
{
    let more = text.len() - at;
    if more < 2 {
        return as_row(0, 0, 0);
    }
    let two = sign2(text, at);
    if two.long != 0 {
        return two;
    }
    if more < 3 {
        return as_row(0, 0, 0);
    }
    sign3(text, at)
}
