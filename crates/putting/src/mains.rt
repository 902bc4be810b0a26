// The clause of `main`: a term of that name without parameters. No place in the text has the name for sure, so its four bytes are compared.
ghost use Rattle.std.specs.Prelude.{◌≡◌, ◌≤◌, length, get_or};
ghost use Rattle.notation_calculus.specs.Words.{same_name};
ghost use Rattle.notation_calculus.specs.Make.{main_name};
ghost use Rattle.words.specs.Next.{run_at};
ghost use Rattle.making_memory.specs.Map.{clause_count_at};
ghost use Rattle.clauses.specs.Follows.{RowsThere};
ghost use Rattle.putting.specs.Main.{row_main, first_main};

use clauses::rows;
use clauses::rows::Row;

// The name at an offset is `main`.
pub fn named_main(text: &[u8], at: usize) -> bool
    requires { at ≤ length text.now }
    ensures { result ≡ same_name (run_at text.now at) main_name }
{
    let end = words::run_end(text, at);
    if end != at + 4 {
        return false;
    }
    if text[at] != b'm' {
        return false;
    }
    if text[at + 1] != b'a' {
        return false;
    }
    if text[at + 2] != b'i' {
        return false;
    }
    text[at + 3] == b'n'
}

fn is_main(text: &[u8], r: Row) -> bool
    requires { r.name ≤ length text.now }
    ensures { result ≡ row_main text.now r }
{
    if r.sort {
        return false;
    }
    if !named_main(text, r.name) {
        return false;
    }
    if r.types != 0 {
        return false;
    }
    r.numbers == 0
}

// The first clause of `main` among n; or n.
pub fn first_main(text: &[u8], work: &[u16], n: usize) -> usize
    requires { (RowsThere text.now work.now) × (n ≤ get_or work.now clause_count_at 0) }
    ensures { result ≡ first_main text.now work.now n }
{
    for k in 0..n {
        let r = rows::row_at(work, k);
        if is_main(text, r) {
            return k;
        }
    }
    n
}
