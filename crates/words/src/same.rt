// Names compared: as many bytes at a time as there are. The end of a name is sought once, where it is asked for, and never that of a name that it is
// compared with: a long name that is passed over costs one look.
ghost use Rattle.std.specs.Prelude.{◌≡◌, true, cond, ltb, ◌+◌, ◌≤◌, ◌<◌, length, take, drop};
ghost use Rattle.notation_calculus.specs.Words.{same_name, run};
ghost use Rattle.words.specs.Next.{run_at};
ghost use Rattle.words.specs.Stretches.{BothInside};

use crate::spelling::{key2, key4, key8};
use crate::{both, goes_on, in_name, run_end};

// None, one, two or four bytes, at once. The two places are two parameters here and below: they move on by other steps at each call, and a pair of them
// would be taken apart again wherever a byte is read.
fn part_same(text: &[u8], a: usize, b: usize, n: usize) -> bool
    requires { (BothInside text.now a b n) × ((n ≤ 4) × ¬ (n ≡ 3)) }
    ensures { result ≡ same_name (take n (drop a text.now)) (take n (drop b text.now)) }
{
    match n {
        0 => true,
        1 => text[a] == text[b],
        2 => key2(text, a) == key2(text, b),
        _ => key4(text, a) == key4(text, b),
    }
}

// Fewer than eight: four, if there are as many, then two, then one.
fn rest_same(text: &[u8], a: usize, b: usize, n: usize) -> bool
    requires { (BothInside text.now a b n) × (n < 8) }
    ensures { result ≡ same_name (take n (drop a text.now)) (take n (drop b text.now)) }
{
    let fours = n / 4 * 4;
    let twos = n / 2 * 2;
    part_same(text, a, b, fours)
        && part_same(text, a + fours, b + fours, twos - fours)
        && part_same(text, a + twos, b + twos, n - twos)
}

// The n bytes at a place are those at another.
fn bytes_same(text: &[u8], a: usize, b: usize, n: usize) -> bool
    requires { BothInside text.now a b n }
    ensures { result ≡ same_name (take n (drop a text.now)) (take n (drop b text.now)) }
{
    let whole = n / 8;
    for k in 0..whole {
        if key8(text, a + 8 * k) != key8(text, b + 8 * k) {
            return false;
        }
    }
    let i = 8 * whole;
    rest_same(text, a + i, b + i, n - i)
}

// The name at a place, which has so many bytes, is the name at another.
pub fn same_as(text: &[u8], name: usize, long: usize, at: usize) -> bool
    requires { (name ≤ length text.now) × ((at ≤ length text.now) × (long ≡ run (drop name text.now))) }
    ensures { result ≡ same_name (run_at text.now name) (run_at text.now at) }
{
    if text.len() - at < long {
        return false;
    }
    if !bytes_same(text, name, at, long) {
        return false;
    }
    !goes_on(text, at + long)
}

// A name of four bytes or fewer, with a byte behind as many at the other place.
fn brief(long: usize, room: usize) -> bool
    ensures { result ≡ true → (0 < long) × ((long ≤ 4) × (long < room)) }
{
    if long == 0 {
        return false;
    }
    if 4 < long {
        return false;
    }
    long < room
}

// The second byte of a name that has more than two; else the first.
fn second(long: usize) -> usize
    requires { 0 < long }
    ensures { (result ≡ cond (ltb 2 long) 1 0) × (result < long) }
{
    if 2 < long {
        return 1;
    }
    0
}

// .. for the loops that look for a name: a brief one is told by its bytes, from both ends, and the byte behind it, without a call.
pub fn is_name(text: &[u8], name: usize, long: usize, at: usize) -> bool
    requires { (name ≤ length text.now) × ((at ≤ length text.now) × (long ≡ run (drop name text.now))) }
    ensures { result ≡ same_name (run_at text.now name) (run_at text.now at) }
{
    if !brief(long, text.len() - at) {
        return same_as(text, name, long, at);
    }
    let o = second(long);
    let l = long - 1;
    let p = l - o;
    if !both(text[name] == text[at], text[name + l] == text[at + l]) {
        return false;
    }
    if !both(
        text[name + o] == text[at + o],
        text[name + p] == text[at + p],
    ) {
        return false;
    }
    !in_name(text[at + long])
}

// How many bytes the name at a place has.
pub fn long_of(text: &[u8], name: usize) -> usize
    requires { name ≤ length text.now }
    ensures { result ≡ run (drop name text.now) }
{
    run_end(text, name) - name
}

// Two names, each at its place, are the same.
pub fn same_run(text: &[u8], a: usize, b: usize) -> bool
    requires { (a ≤ length text.now) × (b ≤ length text.now) }
    ensures { result ≡ same_name (run_at text.now a) (run_at text.now b) }
{
    same_as(text, a, long_of(text, a), b)
}
