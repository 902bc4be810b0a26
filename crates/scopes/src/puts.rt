// What a definition that is put in costs, and the count of that.
ghost use Rattle.std.specs.Prelude.{◌≡◌, ◌<◌, length};
ghost use Rattle.words.specs.Lexed.{Lexed};
ghost use Rattle.making_memory.specs.Map.{put_count_at};
ghost use Rattle.scopes.specs.Puts.{row_cost, PutCounted};

use clauses::rows::Row;

// One, and one more for each 32 bytes from the name to the word behind the clause.
pub fn cost_of(text: &[u8], r: Row) -> usize
    requires { Lexed text.now r.end }
    ensures { result ≡ row_cost text.now r }
{
    let start = words::starts::start_of(text, r.end);
    if start < r.name {
        return 1;
    }
    let long = start - r.name;
    1 + long / 32
}

// So much more is counted, if that is no more than there may be.
pub fn count_put(work: &mut [u16], cost: usize) -> bool
    requires { put_count_at < length work.old }
    ensures { PutCounted work.old cost work.new result }
{
    if 32767 < cost {
        return false;
    }
    let n = usize::from(work[making_memory::PUT_COUNT]);
    if 32767 - cost < n {
        return false;
    }
    work[making_memory::PUT_COUNT] = (n + cost) as u16;
    true
}
