// Names that stand one after the other in a text.
ghost use Rattle.std.specs.Prelude.{◌≡◌, ◌<◌};
ghost use Rattle.notation_calculus.specs.Grammar.{behind};
ghost use Rattle.notation_machine.specs.Lists.{head_at};
ghost use Rattle.words.specs.Lexed.{Lexed};
ghost use Rattle.term_parts.specs.Names.{NamesStand, NameSays, HeadSays, SpacedSay, ListedSay, TwoSay, deeper_by, PassedSays, listed_code, NextSays};

use answers::{Reason, Refusal};

const ENDS: u8 = 0;

const ROUND: u8 = 11;

const END_ROUND: u8 = 12;

const COMMA: u8 = 14;

const COLON: u8 = 15;

// A name's place, and the offset behind it.
#[derive(Clone, Copy)]
pub struct NameEnd {
    pub place: usize,
    pub end: usize,
}

pub fn name_at(text: &[u8], at: usize) -> Result<NameEnd, Refusal>
    requires { Lexed text.now at }
    ensures { NameSays text.now at result }
{
    let w = words::word_at(text, at);
    if w.kind == words::NAME {
        return Ok(NameEnd {
            place: w.start,
            end: w.end,
        });
    }
    Err(Reason::OtherWordDue.at(w.start))
}

// How many names there are, and the offset behind them.
#[derive(Clone, Copy)]
pub struct NamesEnd {
    pub count: usize,
    pub end: usize,
}

// Names up to the colon.
pub fn count_names(text: &[u8], at: usize) -> Result<NamesEnd, Refusal>
    requires { Lexed text.now at }
    ensures { SpacedSay text.now at result }
{
    let mut p = at;
    let mut count: usize = 0;
    loop {
        let x = name_at(text, p)?;
        count += 1;
        let c = words::word_at(text, x.end);
        if c.kind == COLON {
            return Ok(NamesEnd { count, end: x.end });
        }
        p = x.end;
    }
}

// How many lists are open behind a word that ends at an offset. The kind is a word's, here and in `listed`: `words::Word` has it as a number, of which
// the definitions `deeper_by` and `listed_code` speak.
fn deeper(kind: u8, deep: usize, end: usize) -> usize
    requires { (0 < deep) × (deep < end) }
    ensures { result ≡ deeper_by kind deep }
{
    if kind == ROUND {
        return deep + 1;
    }
    if kind == END_ROUND {
        return deep - 1;
    }
    deep
}

// The offset behind the list whose parenthesis stands before an offset; the end is never passed.
fn behind_list(text: &[u8], at: usize) -> usize
    requires { (Lexed text.now at) × (0 < at) }
    ensures { PassedSays text.now at result }
{
    let mut deep: usize = 1;
    let mut p = at;
    while 0 < deep {
        let w = words::word_at(text, p);
        if w.kind == ENDS {
            return p;
        }
        deep = deeper(w.kind, deep, w.end);
        p = w.end;
    }
    p
}

// One of a list: a name, or a list, which is passed over.
pub fn head_at(text: &[u8], at: usize) -> Result<NameEnd, Refusal>
    requires { Lexed text.now at }
    ensures { HeadSays text.now at result }
{
    let w = words::word_at(text, at);
    if w.kind == words::NAME {
        return Ok(NameEnd {
            place: w.start,
            end: w.end,
        });
    }
    if w.kind == ROUND {
        let end = behind_list(text, w.end);
        return Ok(NameEnd {
            place: w.start,
            end,
        });
    }
    Err(Reason::OtherWordDue.at(w.start))
}

// Names, and lists that stand for one, with commas between them.
pub fn count_listed(text: &[u8], at: usize) -> Result<NamesEnd, Refusal>
    requires { Lexed text.now at }
    ensures { ListedSay text.now at result }
{
    let mut p = at;
    let mut count: usize = 0;
    loop {
        let x = head_at(text, p)?;
        count += 1;
        let c = words::word_at(text, x.end);
        if c.kind != COMMA {
            return Ok(NamesEnd { count, end: x.end });
        }
        p = c.end;
    }
}

// The first two names of a list: their places, and the offset of the second.
#[derive(Clone, Copy)]
pub struct TwoNames {
    pub first: usize,
    pub second: usize,
    pub next: usize,
}

pub fn two_names(text: &[u8], at: usize) -> TwoNames
    requires { NamesStand head_at behind text.now at 2 }
    ensures { TwoSay text.now at result }
{
    let x = head_at(text, at).unwrap();
    let c = words::word_at(text, x.end);
    let y = head_at(text, c.end).unwrap();
    TwoNames {
        first: x.place,
        second: y.place,
        next: c.end,
    }
}

// The place of the next list's parenthesis, and the offset behind that.
#[derive(Clone, Copy)]
pub struct NextList {
    pub place: usize,
    pub end: usize,
}

// A word that stands in lists besides an opening parenthesis.
fn listed(kind: u8) -> bool
    ensures { result ≡ listed_code kind }
{
    if kind == words::NAME {
        return true;
    }
    if kind == COMMA {
        return true;
    }
    kind == END_ROUND
}

// The next list that begins in lists from an offset on, before any word that stands in no list.
pub fn next_list(text: &[u8], at: usize) -> Option<NextList>
    requires { Lexed text.now at }
    ensures { NextSays text.now at result }
{
    let mut p = at;
    let mut w = words::word_at(text, p);
    while listed(w.kind) {
        p = w.end;
        w = words::word_at(text, p);
    }
    if w.kind != ROUND {
        return None;
    }
    Some(NextList {
        place: w.start,
        end: w.end,
    })
}
