// The lines `table` of a text whose clauses stand in the working memory: its items are read again from the first line on, and each type of a
// line is worked out.
ghost use Rattle.std.specs.Prelude.{◌≡◌, [], ◌∷◌, ◌+◌, ◌*◌, ◌≤◌, ◌<◌, length};
ghost use Rattle.std.proofs.lemmas.List.Edits.{sets};
ghost use Rattle.making_memory.specs.Map.{frames_at, making_size};
ghost use Rattle.maker.specs.Lines.{CanTypeOne, TypedSays, CanTypes, LineTypes, CanLine, LineSays, CanItem, ItemSays, LinesSay};

use answers::Refusal;
use grammar::items;
use grammar::steps::COMMA;
use scopes::frames;
use scopes::frames::Frame;
use type_walk::type_from;

const TABLE: u8 = 7;

// Behind a type of a line: the offset of the next one, or of what stands behind the line.
#[derive(Clone, Copy, Debug, PartialEq, Eq)]
pub enum Typed {
    More(usize),
    Last(usize),
}

// Behind an item: the offset where the items go on, and how many clauses stand above it.
#[derive(Clone, Copy, Debug, PartialEq, Eq)]
pub struct Went {
    pub at: usize,
    pub seen: usize,
}

// The text's own scope: so many clauses, no parameters and no variables.
pub fn know(work: &mut [u16], seen: usize)
    requires { (seen < 65536) × (making_size ≤ length work.old) }
    ensures { work.new ≡ sets work.old (frames_at + 4 * 81) (seen ∷ 0 ∷ 0 ∷ 0 ∷ []) }
{
    frames::set_frame(
        work,
        81,
        Frame {
            seen,
            types: 0,
            numbers: 0,
            variables: 0,
        },
    );
}

// The type at an offset, and the comma behind it.
fn one_type(text: &[u8], work: &mut [u16], at: usize) -> Result<Typed, Refusal>
    requires { CanTypeOne text.now work.old at }
    ensures { TypedSays text.now work.old at result work.new }
{
    let t = type_from(text, work, at, 80, 81, 0)?;
    let c = words::word_at(text, t.end);
    if c.kind == COMMA {
        return Ok(Typed::More(c.end));
    }
    Ok(Typed::Last(t.end))
}

// Types with commas between.
fn types(text: &[u8], work: &mut [u16], start: usize, seen: usize) -> Result<Went, Refusal>
    requires { CanTypes text.now work.old start seen }
    ensures { LineTypes text.now work.old start seen result work.new }
{
    let mut at = start;
    loop {
        match one_type(text, work, at)? {
            Typed::More(next) => {
                at = next;
            }
            Typed::Last(end) => {
                return Ok(Went { at: end, seen });
            }
        }
    }
}

// .. behind `table`, in the text's own scope. The offset and the count of clauses above stay two here and in `types`: the offset is the one behind the word
// `table`, and no place where an item went.
fn line(text: &[u8], work: &mut [u16], start: usize, seen: usize) -> Result<Went, Refusal>
    requires { CanLine text.now work.old start seen }
    ensures { LineSays text.now work.old start seen result work.new }
{
    know(work, seen);
    types(text, work, start, seen)
}

// The item at an offset, behind so many clauses; none at the text's end.
fn item(text: &[u8], work: &mut [u16], here: Went) -> Result<Option<Went>, Refusal>
    requires { CanItem text.now work.old here.at here.seen }
    ensures { ItemSays text.now work.old here.at here.seen result work.new }
{
    let w = words::word_at(text, here.at);
    if w.kind == 0 {
        return Ok(None);
    }
    if w.kind == TABLE {
        let past = line(text, work, w.end, here.seen)?;
        return Ok(Some(past));
    }
    let at = items::item_end(text, here.at).unwrap();
    Ok(Some(Went {
        at,
        seen: here.seen + 1,
    }))
}

// All items from an offset on, above which so many clauses stand.
pub fn lines(text: &[u8], work: &mut [u16], start: usize, above: usize) -> Result<(), Refusal>
    requires { CanItem text.now work.old start above }
    ensures { LinesSay text.now work.old start above result work.new }
{
    let mut here = Went {
        at: start,
        seen: above,
    };
    while let Some(past) = item(text, work, here)? {
        here = past;
    }
    Ok(())
}
