// What waits at each level of a walk over a text, in the working memory. A level is named by the levels that there may still be below the
// one that it waits for.
#![tactic(auto)]

ghost use Rattle.std.specs.Prelude.{◌≡◌, ◌+◌, ◌*◌, ◌≤◌, ◌<◌, length};
ghost use Rattle.std.proofs.lemmas.List.Edits.{sets};
ghost use Rattle.making_memory.specs.Map.{levels_at, making_size};
ghost use Rattle.walk_levels.specs.Levels.{scopes_at, InLevels, level_in, scope_in, level_numbers, scope_numbers, pushed};

use making_memory::LEVELS;

// The scopes of the levels, behind the levels: four numbers each.
pub const SCOPES: usize = 32400;

// What is done with what comes: a form; a flag; the offset of a word; how many names, arguments or elements there are; a node, its type and
// its depth; and an offset in the text, or a node.
// The form and the flag stay numbers: `level_at` promises the memory's numbers whatever they are (`level_in`), and two walks have forms of their own
// (`term_walk::Form` and those of type_walk).
#[derive(Clone, Copy, Debug, PartialEq, Eq)]
pub struct Level {
    pub form: u16,
    pub flag: u16,
    pub place: u16,
    pub count: u16,
    pub node: u16,
    pub ty: u16,
    pub deep: u16,
    pub next: u16,
}

// The scope of a level: the frame of its definition, how many entries there are, and how many terms of tuples wait.
#[derive(Clone, Copy, Debug, PartialEq, Eq)]
pub struct Around {
    pub frame: u16,
    pub top: u16,
    pub waiting: u16,
}

pub fn level_at(work: &[u16], m: u16) -> Level
    requires { InLevels work.now m }
    ensures { result ≡ level_in work.now m }
{
    let at = LEVELS + 8 * (m as usize);
    Level {
        form: work[at],
        flag: work[at + 1],
        place: work[at + 2],
        count: work[at + 3],
        node: work[at + 4],
        ty: work[at + 5],
        deep: work[at + 6],
        next: work[at + 7],
    }
}

// A store a line: `copy_from_slice` of an array of the same eight numbers is no plainer.
pub fn set_level(work: &mut [u16], m: u16, l: Level)
    requires { InLevels work.old m }
    ensures { work.new ≡ sets work.old (levels_at + 8 * m) (level_numbers l) }
{
    let at = LEVELS + 8 * (m as usize);
    work[at] = l.form;
    work[at + 1] = l.flag;
    work[at + 2] = l.place;
    work[at + 3] = l.count;
    work[at + 4] = l.node;
    work[at + 5] = l.ty;
    work[at + 6] = l.deep;
    work[at + 7] = l.next;
}

pub fn scope_at(work: &[u16], m: u16) -> Around
    requires { InLevels work.now m }
    ensures { result ≡ scope_in work.now m }
{
    let at = SCOPES + 4 * (m as usize);
    Around {
        frame: work[at],
        top: work[at + 1],
        waiting: work[at + 2],
    }
}

pub fn set_scope(work: &mut [u16], m: u16, s: Around)
    requires { InLevels work.old m }
    ensures { work.new ≡ sets work.old (scopes_at + 4 * m) (scope_numbers s) }
{
    let at = SCOPES + 4 * (m as usize);
    work[at] = s.frame;
    work[at + 1] = s.top;
    work[at + 2] = s.waiting;
}

// A level and its scope: what waits there from now on.
pub fn push(work: &mut [u16], m: u16, l: Level, s: Around)
    requires { InLevels work.old m }
    ensures { work.new ≡ pushed work.old m l s }
{
    set_level(work, m, l);
    set_scope(work, m, s);
}
