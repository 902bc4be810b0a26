// A number for a name: names with different numbers are told apart without a look at their bytes.
ghost use Rattle.std.specs.Prelude.{◌≡◌, ◌≤◌, ◌<◌, length};
ghost use Rattle.words.specs.Next.{run_at};
ghost use Rattle.words.specs.NameKeys.{key_step, name_key};

use crate::in_name;

// One byte more.
fn more_key(h: u32, c: u8) -> u32
    requires { h < 32768 }
    ensures { (result ≡ key_step h c) × (result < 32768) }
{
    (31 * h + c as u32) % 32768
}

// .. of the name at an offset.
pub fn name_key(text: &[u8], from: usize) -> u32
    requires { from ≤ length text.now }
    ensures { (result ≡ name_key (run_at text.now from)) × (result < 32768) }
{
    let mut h: u32 = 0;
    for at in from..text.len() {
        let c = text[at];
        if !in_name(c) {
            return h;
        }
        h = more_key(h, c);
    }
    h
}
