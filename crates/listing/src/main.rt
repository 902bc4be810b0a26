// Reads one sheet from standard input, and prints its full and its lean netlist, or its refusal.
#![tactic(auto)]

ghost use Rattle.std.specs.Prelude.{◌+◌, ◌≤◌, length};

use answers::Refusal;
use translation::Wish;

// A text of which some bytes are used, with room for one more line: it is printed where the room is short. The bytes then used.
fn room_for_a_line(text: &[u8], used: usize) -> usize
    requires { (used ≤ length text.now) × (80 ≤ length text.now) }
    ensures { result + 80 ≤ length text.now }
{
    if 80 <= text.len() - used {
        return used;
    }
    io::write_all(1, &text[..used]);
    0
}

// The line of each record of a netlist, which gives the definition's text (`net-read` of lines/proofs/Whole). All of its bytes are
// records, so that none is of length 0.
fn records(net: &[u8], text: &mut [u8])
    requires { 80 ≤ length text.old }
{
    let mut at: usize = 0;
    let mut used: usize = 0;
    while at < net.len() {
        let size = lines::size_at(net, at);
        if size == 0 {
            break;
        }
        used = room_for_a_line(text, used);
        used = used + lines::line_of(net, at, &mut text[used..]);
        at = at + size;
    }
    io::write_all(1, &text[..used]);
}

fn netlist(heading: &[u8], net: &[u8]) {
    let mut text = io::buffer();
    io::write_all(1, heading);
    records(net, &mut text);
}

fn refused(why: Refusal) {
    let mut text = io::buffer();
    let n = lines::refused_line(&mut text, 0, why.reason.number(), why.place);
    io::write_all(1, &text[..n]);
}

// One netlist behind its heading, or the refusal. False where the sheet is refused.
fn translated(sheet: &[u8], out: &mut [u8], work: &mut [u16], lean: bool, heading: &[u8]) -> bool {
    match translation::translate(
        sheet,
        out,
        work,
        Wish {
            lean,
            plain: true,
            card: false,
        },
    ) {
        Ok(n) => {
            netlist(heading, &out[..n]);
            true
        }
        Err(why) => {
            refused(why);
            false
        }
    }
}

// Output and memory are as large as any sheet needs, so that refusals 1 and 17 are never shown.
fn listing(sheet: &[u8]) {
    let mut out = [0u8; 41344];
    let mut work = [0u16; 32768];
    if !translated(sheet, &mut out, &mut work, false, b"full\n") {
        return;
    }
    if translated(sheet, &mut out, &mut work, true, b"lean\n") {
        io::write_all(1, b"end\n");
    }
}

// One byte more than a sheet may have tells that it is too long.
fn main() {
    let mut room = [0u8; 16385];
    let n = io::read_full(0, &mut room);
    listing(&room[..n]);
}
