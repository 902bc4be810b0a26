// The text of a listing: words, numbers in decimal, and lines.
#![tactic(auto)]

ghost use Rattle.std.specs.Prelude.{◌≡◌, ◌∷◌, ◌+◌, ◌*◌, ◌≤◌, ◌<◌, length};
ghost use Rattle.calculus.specs.Listing.{line};
ghost use Rattle.parts.specs.Table.{name_at};
ghost use Rattle.lines.specs.Figure.{figure, figures};
ghost use Rattle.lines.specs.OneLine.{point_line, part_line, wired_line, pin_line, refused_line};
ghost use Rattle.calculus.specs.NetRead.{two_at};
ghost use Rattle.lines.specs.InBytes.{size_at, line_at};
ghost use Rattle.lines.specs.Wrote.{WroteText};

// A word. As each function here, it answers the offset past what it wrote.
pub fn put_word(text: &mut [u8], at: usize, word: &[u8]) -> usize
    requires { at + length word.now ≤ length text.old }
    ensures { WroteText text.old at word.now text.new result }
{
    let end = at + word.len();
    text[at..end].copy_from_slice(word);
    end
}

// A number in decimal.
pub fn put_decimal(text: &mut [u8], at: usize, n: usize) -> usize
    requires { at + 20 ≤ length text.old }
    ensures { WroteText text.old at (figure n) text.new result }
{
    if n < 10 {
        text[at] = 48 + n as u8;
        return at + 1;
    }
    let end = put_decimal(text, at, n / 10);
    text[end] = 48 + (n % 10) as u8;
    end + 1
}

// A number behind a space.
pub fn put_field(text: &mut [u8], at: usize, n: usize) -> usize
    requires { at + 21 ≤ length text.old }
    ensures { WroteText text.old at (32 ∷ figure n) text.new result }
{
    text[at] = b' ';
    put_decimal(text, at + 1, n)
}

// Some numbers from the first on, each behind a space.
pub fn put_fields(text: &mut [u8], from: usize, count: usize, first: usize) -> usize
    requires { (from + 21 * count ≤ length text.old) × (first + count < 4294967296) }
    ensures { WroteText text.old from (figures count first) text.new result }
{
    let mut at = from;
    for i in 0..count {
        at = put_field(text, at, first + i);
    }
    at
}

// The rest of a line: some numbers, and the line feed.
pub fn end_line(text: &mut [u8], at: usize, count: usize, first: usize) -> usize
    requires { (at + 21 * count + 1 ≤ length text.old) × (first + count < 4294967296) }
    ensures { WroteText text.old at (line (figures count first)) text.new result }
{
    let end = put_fields(text, at, count, first);
    text[end] = b'\n';
    end + 1
}

// The name of a part; none where there is no such part.
pub fn put_name(text: &mut [u8], at: usize, p: u8) -> usize
    requires { at + 4 ≤ length text.old }
    ensures { WroteText text.old at (name_at p) text.new result }
{
    let name = parts::name_of(p);
    let letters = name.letters;
    let count = name.count as usize;
    put_word(text, at, &letters[..count])
}

// A point's line: its input and its output.
pub fn point_line(text: &mut [u8], at: usize, input: usize) -> usize
    requires { (at + 80 ≤ length text.old) × (input < 65536) }
    ensures { WroteText text.old at (point_line input) text.new result }
{
    let end = put_word(text, at, b"point");
    end_line(text, end, 2, input)
}

// A part's line: its name and its terminals.
pub fn part_line(text: &mut [u8], at: usize, p: u8, first: usize) -> usize
    requires { (at + 80 ≤ length text.old) × (first < 65536) }
    ensures { WroteText text.old at (part_line p first) text.new result }
{
    let mid = put_word(text, at, b"part ");
    let end = put_name(text, mid, p);
    let part = parts::part_of(p as u16);
    let terminals = part.inputs as usize + part.outputs as usize;
    end_line(text, end, terminals, first)
}

// A wire's line: from and to.
pub fn wire_line(text: &mut [u8], at: usize, from: usize, to: usize) -> usize
    requires { (at + 80 ≤ length text.old) × (to < 65536) }
    ensures { WroteText text.old at (wired_line from to) text.new result }
{
    let mid = put_word(text, at, b"wire");
    let end = put_field(text, mid, from);
    end_line(text, end, 1, to)
}

// A pin's line: its terminal.
pub fn pin_line(text: &mut [u8], at: usize, terminal: usize) -> usize
    requires { (at + 80 ≤ length text.old) × (terminal < 65536) }
    ensures { WroteText text.old at (pin_line terminal) text.new result }
{
    let end = put_word(text, at, b"pin");
    end_line(text, end, 1, terminal)
}

// The line of a refusal: its number and its place.
pub fn refused_line(text: &mut [u8], at: usize, number: u8, place: usize) -> usize
    requires { at + 80 ≤ length text.old }
    ensures { WroteText text.old at (refused_line number place) text.new result }
{
    let first = put_word(text, at, b"refused");
    let second = put_field(text, first, number as usize);
    let end = put_field(text, second, place);
    text[end] = b'\n';
    end + 1
}

// The length of the record that stands at an offset of a netlist; 0 where none stands whole, and no `Option`: `lines_from` adds up the lengths.
pub fn size_at(net: &[u8], at: usize) -> usize
    ensures { result ≡ size_at net.now at }
{
    if net.len() <= at {
        return 0;
    }
    let size = match net[at] {
        0x21 | 0x24 => 3,
        0x22 => 4,
        0x23 => 5,
        _ => 0,
    };
    if size <= net.len() - at { size } else { 0 }
}

// A number of two bytes, low byte first.
fn number_at(net: &[u8], at: usize) -> usize
    requires { at + 2 ≤ length net.now }
    ensures { (result ≡ two_at net.now at) × (result < 65536) }
{
    u16::from_le_bytes([net[at], net[at + 1]]) as usize
}

// The line of the record that stands at an offset of a netlist, written from the start of the text; nothing where none stands whole.
pub fn line_of(net: &[u8], at: usize, text: &mut [u8]) -> usize
    requires { 80 ≤ length text.old }
    ensures { WroteText text.old 0 (line_at net.now at) text.new result }
{
    if size_at(net, at) == 0 {
        return 0;
    }
    match net[at] {
        0x21 => point_line(text, 0, number_at(net, at + 1)),
        0x22 => part_line(text, 0, net[at + 1], number_at(net, at + 2)),
        0x23 => wire_line(text, 0, number_at(net, at + 1), number_at(net, at + 3)),
        0x24 => pin_line(text, 0, number_at(net, at + 1)),
        _ => 0,
    }
}
