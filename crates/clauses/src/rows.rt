// A clause's row: where its parts stand in the text, and how many parameters it has.
ghost use Rattle.std.specs.Prelude.{◌≡◌, true, ◌+◌, ◌*◌, ◌≤◌, ◌<◌, length, get_or};
ghost use Rattle.std.proofs.lemmas.List.Edits.{sets};
ghost use Rattle.making_memory.specs.Map.{clauses_at, clause_count_at, making_size};
ghost use Rattle.words.specs.Next.{run_at};
ghost use Rattle.clauses.specs.Rows.{ClauseEnds, RowRead, flag_of, key_for, row_numbers, ShortRow, row_in, KeyFrom, KeyBelow, HeadAt};

use crate::groups;

const SQUARE: u8 = 17;

const CURLY: u8 = 19;

// The offsets of the name, of what stands behind it, of the number parameters, of the body and of what stands behind that; yes for a type;
// the key of sort and name; how many type parameters and number parameters.
#[derive(Clone, Copy)]
pub struct Row {
    pub name: usize,
    pub typed: usize,
    pub numbered: usize,
    pub body: usize,
    pub end: usize,
    pub sort: bool,
    pub key: usize,
    pub types: usize,
    pub numbers: usize,
}

// The key of a sort and of the name at a place: rows with another key are of another sort or name, and no byte of their names is read.
pub fn key_of(text: &[u8], at: usize, sort: bool) -> usize
    requires { at ≤ length text.now }
    ensures { result ≡ key_for sort (run_at text.now at) }
{
    let h = words::keys::name_key(text, at) as usize;
    if sort {
        return h + 32768;
    }
    h
}

// The row of a clause that the grammar has read from an offset up to another. What stands behind it begins with a word: the comments before that are not
// passed again each time the clause's cost is asked for.
#[inline(never)]
pub fn row_of(text: &[u8], at: usize, sort: bool, end: usize) -> Row
    requires { ClauseEnds text.now at sort end }
    ensures { RowRead text.now at sort end result }
{
    let w = words::word_at(text, at);
    let ts = groups::group_at(text, w.end, SQUARE);
    let ks = groups::group_at(text, ts.end, CURLY);
    let e = words::word_at(text, ks.end);
    let key = key_of(text, w.start, sort);
    let behind = words::starts::start_of(text, end);
    Row {
        name: w.start,
        typed: w.end,
        numbered: ts.end,
        body: e.end,
        end: behind,
        sort,
        key,
        types: ts.count,
        numbers: ks.count,
    }
}

pub fn flag(b: bool) -> u16
    ensures { result ≡ flag_of b }
{
    u16::from(b)
}

// The key of row k alone.
pub fn key_at(work: &[u16], k: usize) -> usize
    requires { (k < 256) × (making_size ≤ length work.now) }
    ensures { result ≡ (row_in work.now k).key }
{
    usize::from(work[making_memory::CLAUSES + 8 * k + 5])
}

// The first row from number k on, up to number n, that has a key; or n. Most rows are passed here, with one look at each.
pub fn key_from(work: &[u16], key: usize, k: usize, n: usize) -> usize
    requires { (k ≤ n) × ((n ≤ 256) × (making_size ≤ length work.now)) }
    ensures { KeyFrom work.now key k n result }
{
    for i in k..n {
        if key_at(work, i) == key {
            return i;
        }
    }
    n
}

// Behind the last row above number k that has a key; or 0.
pub fn key_below(work: &[u16], key: usize, k: usize) -> usize
    requires { (k ≤ 256) × (making_size ≤ length work.now) }
    ensures { KeyBelow work.now key k result }
{
    for i in (0..k).rev() {
        if key_at(work, i) == key {
            return i + 1;
        }
    }
    0
}

// The offset of row k's name alone.
pub fn name_at(work: &[u16], k: usize) -> usize
    requires { (k < 256) × (making_size ≤ length work.now) }
    ensures { result ≡ (row_in work.now k).name }
{
    usize::from(work[making_memory::CLAUSES + 8 * k])
}

// A clause begins at an offset: rows stand in the order of the text, so each look passes half of those that are left. Only a yes is to be believed.
// The library's binary search takes a slice of elements in order: names stand eight numbers apart in the working memory, which is one slice of numbers.
pub fn head_at(work: &[u16], place: usize) -> bool
    requires { (get_or work.now clause_count_at 0 ≤ 256) × (making_size ≤ length work.now) }
    ensures { result ≡ true → HeadAt work.now place }
{
    let mut low: usize = 0;
    let mut high = usize::from(work[making_memory::CLAUSE_COUNT]);
    while low < high {
        let middle = (low + high) / 2;
        let name = name_at(work, middle);
        if name == place {
            return true;
        }
        if name < place {
            low = middle + 1;
        } else {
            high = middle;
        }
    }
    false
}

// Row k of the table.
pub fn row_at(work: &[u16], k: usize) -> Row
    requires { (k < 256) × (making_size ≤ length work.now) }
    ensures { result ≡ row_in work.now k }
{
    let c = making_memory::CLAUSES + 8 * k;
    Row {
        name: usize::from(work[c]),
        typed: usize::from(work[c + 1]),
        numbered: usize::from(work[c + 2]),
        body: usize::from(work[c + 3]),
        end: usize::from(work[c + 4]),
        sort: 32768 <= work[c + 5],
        key: usize::from(work[c + 5]),
        types: usize::from(work[c + 6]),
        numbers: usize::from(work[c + 7]),
    }
}

// Row k of the table is set.
pub fn store(work: &mut [u16], k: usize, r: Row)
    requires { (k < 256) × (making_size ≤ length work.old) × ShortRow r }
    ensures { work.new ≡ sets work.old (clauses_at + 8 * k) (row_numbers r) }
{
    let c = making_memory::CLAUSES + 8 * k;
    work[c] = r.name as u16;
    work[c + 1] = r.typed as u16;
    work[c + 2] = r.numbered as u16;
    work[c + 3] = r.body as u16;
    work[c + 4] = r.end as u16;
    work[c + 5] = r.key as u16;
    work[c + 6] = r.types as u16;
    work[c + 7] = r.numbers as u16;
}
