// Reads packed calls from standard input, and prints a line for each: for the full, then the lean netlist, the answer and the checksums of
// output and memory after the call; then where some nodes' stretches begin, and their lengths. Its input was made by
// 'second pack whole 12 1800 640000', and what it must print by 'second answers whole'.
#![tactic(auto)]

ghost use Rattle.std.specs.Prelude.{◌<◌};

use translation::Wish;

// What a call writes: bytes of the output, numbers of the working memory.
trait Short: Copy {
    // The number at place i before a call.
    fn before(i: usize) -> Self;

    fn value(self) -> u64
        ensures { result < 65536 };
}

// Output byte i is i % 251 + 1 before a call.
impl Short for u8 {
    fn before(i: usize) -> u8 {
        (i % 251 + 1) as u8
    }

    fn value(self) -> u64 {
        u64::from(self)
    }
}

// Memory number i is i % 65521 + 1 before a call.
impl Short for u16 {
    fn before(i: usize) -> u16 {
        (i % 65521 + 1) as u16
    }

    fn value(self) -> u64 {
        u64::from(self)
    }
}

fn fill<T: Short>(numbers: &mut [T]) {
    for (i, number) in numbers.iter_mut().enumerate() {
        *number = T::before(i);
    }
}

// One step of a checksum: times 257, and one more than the number, below the largest prime of 32 bits.
fn step(sum: u64, x: u64) -> u64
    requires { (sum < 4294967291) × (x < 65536) }
    ensures { result < 4294967291 }
{
    (sum * 257 + x + 1) % 4294967291
}

fn sum<T: Short>(numbers: &[T]) -> u64 {
    let mut sum: u64 = 0;
    for number in numbers {
        sum = step(sum, number.value());
    }
    sum
}

fn fields(number: u8, value: usize, out: &[u8], work: &[u16]) {
    io::print_decimal(1, number as u64);
    io::write_all(1, b" ");
    io::print_decimal(1, value as u64);
    io::write_all(1, b" ");
    io::print_decimal(1, sum(out));
    io::write_all(1, b" ");
    io::print_decimal(1, sum(work));
}

// One call, and what it leaves. The output is filled before, and what the call has written is filled again. The length or the place.
fn call(sheet: &[u8], out: &mut [u8], work: &mut [u16], lean: bool) -> usize {
    fill(work);
    match translation::translate(
        sheet,
        out,
        work,
        Wish {
            lean,
            plain: true,
            card: false,
        },
    ) {
        Ok(n) => {
            fields(0, n, out, work);
            fill(&mut out[..n]);
            n
        }
        Err(why) => {
            fields(why.reason.number(), why.place, out, work);
            why.place
        }
    }
}

fn stretch(sheet: &[u8], node: usize) {
    let b = sheet::stretch_bounds(sheet, node);
    io::write_all(1, b" ");
    io::print_decimal(1, b.start as u64);
    io::write_all(1, b" ");
    io::print_decimal(1, b.size as u64);
}

// Of nodes, the first two, the one that a refusal may name, and the last that a sheet may have and the next.
fn line(sheet: &[u8], out: &mut [u8], work: &mut [u16]) {
    let value = call(sheet, out, work, false);
    io::write_all(1, b" ");
    call(sheet, out, work, true);
    stretch(sheet, 0);
    stretch(sheet, 1);
    stretch(sheet, value);
    stretch(sheet, 2047);
    stretch(sheet, 2048);
    io::write_all(1, b"\n");
}

// The sheet of a case, in room of its length.
fn sheet_of(room: &mut [u8], out: &mut [u8], work: &mut [u16]) {
    let n = io::read_full(0, room);
    line(&room[..n], out, work);
}

// One case: its room, its memory and its sheet's length, then the sheet. False where there is none.
fn case(sheet: &mut [u8], out: &mut [u8], work: &mut [u16]) -> bool {
    let mut head = [0u8; 6];
    let n = io::read_full(0, &mut head);
    if n < 6 {
        return false;
    }
    let room = u16::from_le_bytes([head[0], head[1]]) as usize;
    let memory = u16::from_le_bytes([head[2], head[3]]) as usize;
    let length = u16::from_le_bytes([head[4], head[5]]) as usize;
    if out.len() < room {
        return false;
    }
    if work.len() < memory {
        return false;
    }
    if sheet.len() < length {
        return false;
    }
    sheet_of(&mut sheet[..length], &mut out[..room], &mut work[..memory]);
    true
}

fn cases(sheet: &mut [u8], out: &mut [u8], work: &mut [u16]) {
    for _ in 0..1000000 {
        if !case(sheet, out, work) {
            return;
        }
    }
}

fn main() {
    let mut sheet = [0u8; 16387];
    let mut out = [0u8; 41344];
    let mut work = [0u16; 32770];
    fill(&mut out);
    cases(&mut sheet, &mut out, &mut work);
}
