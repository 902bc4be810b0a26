// A clause after those of the table: refusals 34 and 36.
ghost use Rattle.std.specs.Prelude.{◌≡◌, ◌+◌, ◌*◌, ◌≤◌, ◌<◌, length, get_or};
ghost use Rattle.making_memory.specs.Map.{clause_count_at};
ghost use Rattle.clauses.specs.Rows.{ShortRow};
ghost use Rattle.clauses.specs.Follows.{RowThere, row_namesake, row_follows, follows_from, RowsThere, RowAdded};

use crate::rows::Row;
use crate::{cells, numbers, rows};
use answers::Reason;

// A row of a sort and of the name at a place.
pub fn namesake(text: &[u8], r: Row, sort: bool, at: usize) -> bool
    requires { (r.name ≤ length text.now) × (at ≤ length text.now) }
    ensures { result ≡ row_namesake text.now r sort at }
{
    if r.sort != sort {
        return false;
    }
    words::same::same_run(text, at, r.name)
}

// A later clause of a name may follow if it has as many parameters, and fits numbers that the earlier do not fit.
fn may_follow(text: &[u8], c: Row, d: Row) -> bool
    requires { (RowThere text.now c) × (RowThere text.now d) }
    ensures { result ≡ row_follows text.now c d }
{
    if !namesake(text, c, d.sort, d.name) {
        return true;
    }
    if c.types != d.types {
        return false;
    }
    if c.numbers != d.numbers {
        return false;
    }
    !numbers::cover_all(text, c.numbered, d.numbered, c.numbers)
}

// How many rows the table has.
pub fn row_count(work: &[u16]) -> usize
    requires { clause_count_at < length work.now }
    ensures { result ≡ get_or work.now clause_count_at 0 }
{
    usize::from(work[making_memory::CLAUSE_COUNT])
}

// .. after each row of the table with its key: the others are of other sorts or names.
fn may_follow_all(text: &[u8], work: &[u16], n: usize, d: Row) -> bool
    requires { (RowsThere text.now work.now) × ((n ≡ get_or work.now clause_count_at 0) × (RowThere text.now d)) }
    ensures { result ≡ follows_from text.now work.now d 0 n }
{
    let mut k = rows::key_from(work, d.key, 0, n);
    while k < n {
        let c = rows::row_at(work, k);
        if !may_follow(text, c, d) {
            return false;
        }
        k = rows::key_from(work, d.key, k + 1, n);
    }
    true
}

// The row stands behind the table; or 34, then 36.
#[inline(never)]
pub fn with_row(text: &[u8], work: &mut [u16], d: Row) -> Result<(), Reason>
    requires { (RowsThere text.now work.old) × ((RowThere text.now d) × ((ShortRow d) × (length text.now ≤ 65535))) }
    ensures { RowAdded text.now work.old d work.new result }
{
    let n = row_count(work);
    if 256 <= n {
        return Err(Reason::TextLimit);
    }
    if !may_follow_all(text, work, n, d) {
        return Err(Reason::DefinedAbove);
    }
    rows::store(work, n, d);
    work[making_memory::CLAUSE_COUNT] = n as u16 + 1;
    cells::store(text, work, n, d.numbered, d.numbers);
    Ok(())
}
