// A text with numbers of four digits at its marks X, Y and Z. Nothing is stored past the output's end.
ghost use Rattle.std.specs.Prelude.{◌≡◌, ◌+◌, ◌≤◌, ◌%◌, length, set};
ghost use Rattle.std.proofs.lemmas.List.Edits.{sets};
ghost use Rattle.export_calculus.specs.Verilog.{four_digits, is_mark, pick, letter, filled};
ghost use Rattle.lines.specs.Wrote.{WroteText};

// A character.
fn put_byte(out: &mut [u8], at: usize, c: u8)
    ensures { out.new ≡ set out.old at c }
{
    if at < out.len() {
        out[at] = c;
    }
}

// A digit: the last one of n.
fn put_digit(out: &mut [u8], at: usize, n: usize)
    ensures { out.new ≡ set out.old at (48 + n % 10) }
{
    put_byte(out, at, 48 + (n % 10) as u8);
}

// A number's last four digits.
fn put_four(out: &mut [u8], at: usize, n: usize)
    requires { at ≤ 8589934592 }
    ensures { out.new ≡ sets out.old at (four_digits n) }
{
    let tens = n / 10;
    let hundreds = tens / 10;
    put_digit(out, at, hundreds / 10);
    put_digit(out, at + 1, hundreds);
    put_digit(out, at + 2, tens);
    put_digit(out, at + 3, n);
}

// The three numbers of a form stay three arguments: half of the sixteen calls write 0 for one, two or all of them, and in a
// struct each call would name three fields.
//
// The number that a mark stands for.
fn number_of(c: u8, x: usize, y: usize, z: usize) -> usize
    ensures { result ≡ pick c x y z }
{
    if c == b'X' {
        return x;
    }
    if c == b'Y' { y } else { z }
}

// X, Y and Z are marks.
fn is_mark(c: u8) -> bool
    ensures { result ≡ is_mark c }
{
    if c < b'X' {
        return false;
    }
    c <= b'Z'
}

// A character of a form. As each function that follows, it answers the offset past what it wrote.
fn put_letter(out: &mut [u8], at: usize, c: u8, x: usize, y: usize, z: usize) -> usize
    requires { at ≤ 8589934592 }
    ensures { WroteText out.old at (letter c x y z) out.new result }
{
    if is_mark(c) {
        put_four(out, at, number_of(c, x, y, z));
        return at + 4;
    }
    put_byte(out, at, c);
    at + 1
}

// A form with its numbers.
pub fn put_form(out: &mut [u8], from: usize, form: &[u8], x: usize, y: usize, z: usize) -> usize
    requires { (from ≤ 4294967296) × (length form.now ≤ 128) }
    ensures { WroteText out.old from (filled form.now x y z) out.new result }
{
    let mut at = from;
    for c in form {
        at = put_letter(out, at, *c, x, y, z);
    }
    at
}
