// The first numbers of each clause, a cell each: the numbers of a clause that is passed are not read again from its text, where blanks, comments and long
// names may stand between them that nobody pays for.
ghost use Rattle.std.specs.Prelude.{◌≡◌, ◌+◌, ◌≤◌, ◌<◌, length, get_or};
ghost use Rattle.notation_calculus.specs.Making.{fit_all, most_entries};
ghost use Rattle.making_memory.specs.Map.{making_size};
ghost use Rattle.clauses.specs.Numbers.{plain_number, numbers_from, NumbersThere};
ghost use Rattle.clauses.specs.Cells.{most_cells, CellCount, cell_at, cell_of, cell_fits, cells_fit, CellsThere, CellsStored};
ghost use Rattle.clauses.specs.Meant.{values_in};

use crate::numbers::Num;
use crate::{meant, numbers};

const MOST_CELLS: usize = 27;

fn cell_of(k: Num) -> u16
    requires { k.plus ≤ 255 }
    ensures { result ≡ cell_of (plain_number k) }
{
    let plus = k.plus as u16;
    if k.named {
        return 256 + plus;
    }
    plus
}

// Of n numbers so many have cells.
fn cells_in(n: usize) -> usize
    ensures { CellCount n result }
{
    if n <= MOST_CELLS {
        return n;
    }
    MOST_CELLS
}

// An offset and the count of the numbers there stay two parameters, here, in `numbers_fit` and in `meant::fit_all`: `Row` has both among its fields, and
// the later part of a list, which `numbers_fit` hands on, is no row. The first entry of the values goes beside them, also to
// `cells_fit`: it moves on with the offset, and the count goes down.
// The cells of row k, for the n numbers behind an offset; and where the later ones stand.
pub fn store(text: &[u8], work: &mut [u16], k: usize, at: usize, n: usize)
    requires { (NumbersThere text.now at n) × ((length text.now ≤ 65535) × ((k < 256) × (making_size ≤ length work.old))) }
    ensures { CellsStored text.now work.old k at n work.new }
{
    let c = cells_in(n);
    let row = making_memory::CELLS + 28 * k;
    let mut p = at;
    for i in 0..c {
        let x = numbers::number_behind(text, p);
        work[row + i] = cell_of(x);
        p = x.end;
    }
    work[row + MOST_CELLS] = p as u16;
}

// A cell fits a number.
fn fits(cell: u16, n: usize) -> bool
    ensures { result ≡ cell_fits cell n }
{
    let c = usize::from(cell);
    if 256 <= c {
        return c - 256 <= n;
    }
    c == n
}

// Cell j of row k.
fn cell_at(work: &[u16], k: usize, j: usize) -> u16
    requires { (k < 256) × ((j ≤ most_cells) × (making_size ≤ length work.now)) }
    ensures { result ≡ get_or work.now (cell_at k j) 0 }
{
    work[making_memory::CELLS + 28 * k + j]
}

// The first n cells of row k fit the values of the entries from one on.
fn cells_fit(work: &[u16], k: usize, n: usize, first: usize) -> bool
    requires { (k < 256) × ((n ≤ most_cells) × ((first + n ≤ most_entries) × (making_size ≤ length work.now))) }
    ensures { result ≡ cells_fit work.now k first 0 n }
{
    for j in 0..n {
        let v = meant::value_of(work, first + j);
        if !fits(cell_at(work, k, j), v) {
            return false;
        }
    }
    true
}

// The n numbers of row k fit: by their cells, and the later ones by the text.
pub fn numbers_fit(text: &[u8], work: &[u16], k: usize, at: usize, n: usize, first: usize) -> bool
    requires { (CellsThere text.now work.now k at n) × ((k < 256) × ((first + n ≤ most_entries) × (making_size ≤ length work.now))) }
    ensures { result ≡ fit_all (numbers_from text.now at n) (values_in work.now first n) }
{
    let c = cells_in(n);
    if !cells_fit(work, k, c, first) {
        return false;
    }
    if n <= MOST_CELLS {
        return true;
    }
    let later = usize::from(cell_at(work, k, MOST_CELLS));
    meant::fit_all(text, work, later, n - MOST_CELLS, first + MOST_CELLS)
}
