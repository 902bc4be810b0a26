// The words of a text, one after the other over lent bytes.
#![tactic(auto)]

ghost use Rattle.std.specs.Prelude.{◌≡◌, true, false, ◌&&◌, ◌||◌, ◌+◌, ◌*◌, ◌-◌, ◌≤◌, ◌<◌, eqb, length, get_or, take, drop};
ghost use Rattle.calculus.specs.Answer.{good};
ghost use Rattle.notation_calculus.specs.Words.{same_name, between, blank, ends_line, digit, letter, in_name, first, gap, run, capped, number_word, sign_at, signs, word_at};
ghost use Rattle.words.specs.Steps.{PassedTo, CommentTo, StepTo};
ghost use Rattle.words.specs.Classes.{ClassIs, SignCode, NotListed, NoSingle, PlainLetter};
ghost use Rattle.words.specs.Next.{goes_on_lem, run_at, found_at, named_at, next_of, said_word, told};
ghost use Rattle.words.specs.Digits.{DigitsAt};
ghost use Rattle.words.specs.Lexed.{Lexed, Stands, reason_of, Passed};

use answers::{Reason, Refusal};

pub mod keys;
pub mod marks;
pub mod same;
mod spelling;
pub mod starts;

fn both(a: bool, b: bool) -> bool
    ensures { result ≡ (a && b) }
{
    if a {
        return b;
    }
    false
}

fn either(a: bool, b: bool) -> bool
    ensures { result ≡ (a || b) }
{
    if a {
        return true;
    }
    b
}

fn between(a: u8, b: u8, c: u8) -> bool
    ensures { result ≡ between a b c }
{
    both(a <= c, c <= b)
}

fn blank(c: u8) -> bool
    ensures { result ≡ blank c }
{
    either(between(9, 13, c), c == 32)
}

// Few bytes of a comment are so low that they are looked at twice.
fn ends_line(c: u8) -> bool
    ensures { result ≡ ends_line c }
{
    if 13 < c {
        return false;
    }
    either(c == 10, c == 13)
}

fn digit(c: u8) -> bool
    ensures { result ≡ digit c }
{
    between(48, 57, c)
}

fn letter(c: u8) -> bool
    ensures { result ≡ letter c }
{
    either(either(between(65, 90, c), between(97, 122, c)), c == 95)
}

// What a name goes on with. Small letters are told first, then blanks and most signs: comparisons, since a table of bytes would be written to
// the stack at each call.
fn in_name(c: u8) -> bool
    ensures { result ≡ in_name c }
{
    if 97 <= c {
        return c <= 122;
    }
    if c < 48 {
        return c == 39;
    }
    if c <= 57 {
        return true;
    }
    either(between(65, 90, c), c == 95)
}

// Behind the bytes from an offset on that pass a test.
fn passed_end<F: Fn(u8) -> bool>(text: &[u8], from: usize, passes: F) -> usize
    requires { (from ≤ length text.now) × F.IsAlwaysCallable passes }
    ensures { PassedTo (F.post passes) text.now from result }
{
    for at in from..text.len() {
        if !passes(text[at]) {
            return at;
        }
    }
    text.len()
}

// Where a run of letters and digits ends.
pub fn run_end(text: &[u8], from: usize) -> usize
    requires { from ≤ length text.now }
    ensures { result ≡ from + run (drop from text.now) }
{
    passed_end(text, from, in_name)
}

// Behind the blanks at an offset.
fn blanks_end(text: &[u8], from: usize) -> usize
    requires { from ≤ length text.now }
    ensures { (from ≤ result) × ((result ≤ length text.now) × (result + gap false (drop result text.now) ≡ from + gap false (drop from text.now))) }
{
    passed_end(text, from, blank)
}

// Two dashes stand here, which begin a comment.
fn dashes(text: &[u8], at: usize) -> bool
    requires { at < length text.now }
    ensures { result ≡ (eqb (get_or text.now at 0) 45 && eqb (first (drop (at + 1) text.now)) 45) }
{
    if text.len() <= at + 1 {
        return false;
    }
    both(text[at] == 45, text[at + 1] == 45)
}

// Behind the end of the comment's line.
fn comment_end(text: &[u8], from: usize) -> usize
    requires { from ≤ length text.now }
    ensures { CommentTo text.now from result }
{
    for at in from..text.len() {
        if ends_line(text[at]) {
            return at + 1;
        }
    }
    text.len()
}

// The class of a byte that `class` does not name.
fn rare_class(c: u8) -> u8
    requires { NotListed c }
    ensures { ClassIs c result }
{
    if letter(c) {
        return 65;
    }
    if digit(c) {
        return 64;
    }
    if blank(c) {
        return 1;
    }
    0
}

// What a byte begins: 1 a gap; the code of a sign that is one byte; 64 a number; 65 a name; 66 a name or a reserved word; 0 anything else.
fn class(c: u8) -> u8
    ensures { ClassIs c result }
{
    match c {
        32 => 1,
        40 => 11,
        41 => 12,
        42 => 10,
        43 => 21,
        44 => 14,
        46 => 16,
        58 => 15,
        61 => 13,
        91 => 17,
        93 => 18,
        94 => 25,
        123 => 19,
        125 => 20,
        97 | 101 | 105 | 108 | 111 | 114 | 116 | 120 | 122 => 66,
        102 => 66,
        _ => rare_class(c),
    }
}

// Behind a comment that stands here; or here, where none does.
fn step(text: &[u8], at: usize) -> usize
    requires { (at < length text.now) × (blank (get_or text.now at 0) ≡ false) }
    ensures { StepTo text.now at result }
{
    if dashes(text, at) {
        return comment_end(text, at + 1);
    }
    at
}

// ---- a word

pub const PART: u8 = 22;

pub const NUMBER: u8 = 23;

pub const NAME: u8 = 24;

// The sign `^`, whose code is the last of those that stand for words.
pub const POWER: u8 = 25;

// A word's code is a number, and no enum: the definitions (`sign_code` of notation_calculus, `token_code`) and the proofs of all readers compare these
// numbers, and the bytes of a text give them by a table.
// A word: its code (a sign's own, or that of a part, a number or a name; or the number of a refusal), the number that it holds, its place, and the
// offset behind it.
#[derive(Clone, Copy)]
pub struct Word {
    pub kind: u8,
    pub value: u8,
    pub start: usize,
    pub end: usize,
}

// A number with one more digit, which counts as 256 above 255.
fn more_digits(n: u16, c: u8) -> u16
    requires { (n ≤ 256) × (48 ≤ c) }
    ensures { (result ≡ capped (10 * n + (c - 48))) × (result ≤ 256) }
{
    let all = 10 * n + (c - 48) as u16;
    if all <= 255 {
        return all;
    }
    256
}

// Behind the zeros that a number begins with. A number may have as many as it likes, and they are passed at each use.
fn zeros_end(text: &[u8], start: usize) -> usize
    requires { start ≤ length text.now }
    ensures { (result + run (drop result text.now) ≡ start + run (drop start text.now)) × (DigitsAt text.now start (start + run (drop start text.now)) 0 result) }
{
    for at in start..text.len() {
        if text[at] != 48 {
            return at;
        }
    }
    text.len()
}

// A run that begins with a digit: 31 if it is no number, 34 if it is above 255.
fn number_at(text: &[u8], start: usize) -> Word
    requires { start ≤ length text.now }
    ensures { said_word result ≡ told (found_at start (number_word (run_at text.now start) start)) }
{
    let first = zeros_end(text, start);
    let end = run_end(text, first);
    let mut value: u16 = 0;
    for at in first..end {
        let c = text[at];
        if !digit(c) {
            return Word {
                kind: 31,
                value: 0,
                start,
                end: start,
            };
        }
        value = more_digits(value, c);
    }
    if 255 < value {
        return Word {
            kind: 34,
            value: 0,
            start,
            end: start,
        };
    }
    Word {
        kind: NUMBER,
        value: value as u8,
        start,
        end,
    }
}

// A run that begins with a letter that begins no reserved word.
fn plain_at(text: &[u8], start: usize) -> Word
    requires { (start < length text.now) × PlainLetter (get_or text.now start 0) }
    ensures { said_word result ≡ told (found_at start (named_at text.now start)) }
{
    let end = run_end(text, start + 1);
    Word {
        kind: NAME,
        value: 0,
        start,
        end,
    }
}

// A run that begins with a letter: a reserved word, a part or a name.
fn named_at(text: &[u8], start: usize) -> Word
    requires { (start < length text.now) × (letter (get_or text.now start 0) ≡ true) }
    ensures { said_word result ≡ told (found_at start (named_at text.now start)) }
{
    let end = run_end(text, start + 1);
    let row = spelling::reserved_row(text, start, end - start);
    if row.long == 0 {
        return Word {
            kind: NAME,
            value: 0,
            start,
            end,
        };
    }
    Word {
        kind: row.kind,
        value: row.value,
        start,
        end,
    }
}

// A sign that is not one byte; 31 where none begins.
fn sign_at(text: &[u8], start: usize) -> Word
    requires { (start < length text.now) × NoSingle (get_or text.now start 0) }
    ensures { said_word result ≡ told (found_at start (sign_at signs (drop start text.now) start)) }
{
    let row = spelling::sign_row(text, start);
    if row.long == 0 {
        return Word {
            kind: 31,
            value: 0,
            start,
            end: start,
        };
    }
    Word {
        kind: row.kind,
        value: row.value,
        start,
        end: start + row.long,
    }
}

// A sign of one byte, by its code, which is a number, as in `Word`.
fn single(kind: u8, start: usize) -> Word
    requires { start < 18446744073709551615 }
    ensures { said_word result ≡ record { code = kind; value = 0; place = start; end = start + 1 } }
{
    Word {
        kind,
        value: 0,
        start,
        end: start + 1,
    }
}

// A word whose first byte is of a class that tells.
fn word_by(text: &[u8], start: usize, class: u8) -> Word
    requires { (start < length text.now) × ClassIs (get_or text.now start 0) class × (1 < class) }
    ensures { said_word result ≡ told (found_at start (word_at (drop start text.now) start)) }
{
    if class < 64 {
        return Word {
            kind: class,
            value: 0,
            start,
            end: start + 1,
        };
    }
    if class == 64 {
        return number_at(text, start);
    }
    if class == 65 {
        return plain_at(text, start);
    }
    named_at(text, start)
}

// The word that stands next, behind blanks and comments; or the end, or a refusal. Blanks are passed before the first byte's class is asked for: a jump
// by the class is dear where it cannot be foreseen.
pub fn next(text: &[u8], at: usize) -> Word
    requires { at ≤ length text.now }
    ensures { said_word result ≡ told (next_of text.now at) }
{
    let mut start = blanks_end(text, at);
    while start < text.len() {
        let k = class(text[start]);
        if 1 < k {
            return word_by(text, start, k);
        }
        if k == 1 {
            start = blanks_end(text, start + 1);
        } else {
            let past = step(text, start);
            if past == start {
                return sign_at(text, start);
            }
            start = past;
        }
    }
    Word {
        kind: 0,
        value: 0,
        start,
        end: start,
    }
}

// .. of a text whose words are good.
pub fn word_at(text: &[u8], at: usize) -> Word
    requires { Lexed text.now at }
    ensures { Stands text.now at (said_word result) }
{
    next(text, at)
}

// The code of a sign that is told by its byte, without a call: ( ) + , or a dot; 0 for any other byte.
// From a byte to a number by a table, and no conversion of a type: `SignCode` speaks of these numbers.
fn sign_code(c: u8) -> u8
    ensures { SignCode c result }
{
    match c {
        40 => 11,
        41 => 12,
        43 => 21,
        44 => 14,
        46 => 16,
        _ => 0,
    }
}

// .. where such a sign may stand right at the offset.
pub fn word_here(text: &[u8], at: usize) -> Word
    requires { Lexed text.now at }
    ensures { Stands text.now at (said_word result) }
{
    if text.len() <= at {
        return next(text, at);
    }
    let k = sign_code(text[at]);
    if k == 0 {
        return next(text, at);
    }
    single(k, at)
}

// What stands at an offset goes on a name.
fn goes_on(text: &[u8], at: usize) -> bool
    ensures { result ≡ goes_on_lem (drop at text.now) }
{
    if text.len() <= at {
        return false;
    }
    in_name(text[at])
}

// Why a word is refused, by its code, a number as in `Word`: `reason_of` and `Lexed` compare it.
fn reason(kind: u8) -> Reason
    ensures { result ≡ reason_of kind }
{
    if kind == 34 {
        return Reason::TextLimit;
    }
    Reason::NoWord
}

// The pass over all words: 31, and a number's 34.
pub fn check_words(text: &[u8]) -> Result<(), Refusal>
    ensures { Passed text.now result }
{
    let mut at: usize = 0;
    while at < text.len() {
        let w = next(text, at);
        if POWER < w.kind {
            return Err(reason(w.kind).at(w.start));
        }
        at = w.end;
    }
    Ok(())
}
