// The clause that a name means with its arguments, and the clauses that a clause knows.
ghost use Rattle.std.specs.Prelude.{◌≡◌, ◌+◌, ◌*◌, ◌≤◌, ◌<◌, length, get_or};
ghost use Rattle.notation_calculus.specs.Making.{fits, fit_all, most_entries};
ghost use Rattle.making_memory.specs.Map.{scope_at, clause_count_at, making_size};
ghost use Rattle.words.specs.Next.{run_at};
ghost use Rattle.clauses.specs.Rows.{key_for};
ghost use Rattle.clauses.specs.Numbers.{plain_number, numbers_from, NumbersThere};
ghost use Rattle.clauses.specs.Cells.{CellsThere};
ghost use Rattle.clauses.specs.Follows.{RowThere, RowsThere};
ghost use Rattle.clauses.specs.Meant.{values_in, row_meant, first_meant, CanAsk, rows_up_to, row_seen};

use crate::numbers::Num;
use crate::rows::Row;
use crate::{cells, follows, numbers, rows};

// What is named: a type or a term, by a name at a place, with so many type arguments and so many numbers, which stand in the scope from an
// entry on.
#[derive(Clone, Copy)]
pub struct Asked {
    pub sort: bool,
    pub name: usize,
    pub types: usize,
    pub numbers: usize,
    pub first: usize,
}

// A parameter fits a number.
fn fits(k: Num, n: usize) -> bool
    ensures { result ≡ fits (plain_number k) n }
{
    if k.named {
        return k.plus <= n;
    }
    k.plus == n
}

// The value of an entry of the scope.
pub fn value_of(work: &[u16], entry: usize) -> usize
    requires { (entry < most_entries) × (making_size ≤ length work.now) }
    ensures { result ≡ get_or work.now (scope_at + 2 * entry + 1) 0 }
{
    usize::from(work[making_memory::SCOPE + 2 * entry + 1])
}

// The n number parameters at an offset fit the values of the entries from one on.
pub fn fit_all(text: &[u8], work: &[u16], at: usize, n: usize, first: usize) -> bool
    requires { (NumbersThere text.now at n) × ((first + n ≤ most_entries) × (making_size ≤ length work.now)) }
    ensures { result ≡ fit_all (numbers_from text.now at n) (values_in work.now first n) }
{
    let mut p = numbers::first_at(text, at);
    for i in 0..n {
        let k = numbers::number_past(text, p);
        let v = value_of(work, first + i);
        if !fits(k, v) {
            return false;
        }
        p = k.end;
    }
    true
}

// Row k, which is r, is meant.
fn meant(text: &[u8], work: &[u16], q: Asked, k: usize, r: Row) -> bool
    requires { (CanAsk text.now work.now q) × ((RowThere text.now r) × ((k < 256) × (CellsThere text.now work.now k r.numbered r.numbers))) }
    ensures { result ≡ row_meant text.now work.now q r }
{
    if !follows::namesake(text, r, q.sort, q.name) {
        return false;
    }
    if r.types != q.types {
        return false;
    }
    if r.numbers != q.numbers {
        return false;
    }
    cells::numbers_fit(text, work, k, r.numbered, r.numbers, q.first)
}

// The first clause that is meant, among those that are known; or how many are known.
pub fn clause_for(text: &[u8], work: &[u16], q: Asked, seen: usize) -> usize
    requires { (CanAsk text.now work.now q) × (seen ≤ get_or work.now clause_count_at 0) }
    ensures { result ≡ first_meant text.now work.now q 0 seen }
{
    let key = rows::key_of(text, q.name, q.sort);
    let mut k = rows::key_from(work, key, 0, seen);
    while k < seen {
        let r = rows::row_at(work, k);
        if meant(text, work, q, k, r) {
            return k;
        }
        k = rows::key_from(work, key, k + 1, seen);
    }
    k
}

// How many clauses there are up to the last one of a sort and name, whose key is known; or else. Sought from the last on.
fn up_to(text: &[u8], work: &[u16], key: usize, sort: bool, at: usize, otherwise: usize) -> usize
    requires { (RowsThere text.now work.now) × ((at ≤ length text.now) × (key ≡ key_for sort (run_at text.now at))) }
    ensures { result ≡ rows_up_to text.now work.now sort at 0 (get_or work.now clause_count_at 0) otherwise }
{
    let n = follows::row_count(work);
    let mut k = rows::key_below(work, key, n);
    while 0 < k {
        let r = rows::row_at(work, k - 1);
        if follows::namesake(text, r, sort, at) {
            return k;
        }
        k = rows::key_below(work, key, k - 1);
    }
    otherwise
}

// Clause k knows those above it; with number parameters it knows all up to the last one of its name, so itself too.
pub fn seen_by(text: &[u8], work: &[u16], k: usize) -> usize
    requires { (RowsThere text.now work.now) × (k < get_or work.now clause_count_at 0) }
    ensures { result ≡ row_seen text.now work.now k }
{
    let c = rows::row_at(work, k);
    if c.numbers == 0 {
        return k;
    }
    up_to(text, work, c.key, c.sort, c.name, k)
}
