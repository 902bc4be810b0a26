// Functions, fixed points and names for terms, when they are entered; `place` is that of the word that the level begins with.
ghost use Rattle.std.specs.Prelude.{◌≡◌, ◌+◌, ◌≤◌, ◌<◌, length};
ghost use Rattle.notation_calculus.specs.Grammar.{behind, name_at};
ghost use Rattle.notation_machine.specs.Lists.{head_at};
ghost use Rattle.notation_calculus.specs.Making.{most_entries};
ghost use Rattle.words.specs.Lexed.{from, Lexed};
ghost use Rattle.term_parts.specs.Names.{NamesStand, spaced};
ghost use Rattle.term_walk.specs.Looks.{ReadableFrom};
ghost use Rattle.term_walk.specs.Steps.{CanEnter, EnterSays, CanBound, CanNames, NameStands, ListStands, Opens, bound_entry, typed_entry, pair_bound_entry, pair_typed_entry, pair_entry, function_entry, fix_bound_entry, fix_typed_entry, fix_entry, value_entry, values_entry, names_entry, let_entry};

use crate::lists::Items;
use crate::{Form, Walk, lists, looks};
use answers::{Reason, Refusal};
use scopes::entries;
use term_parts::{bound, names};
use walk_levels::Level;

const ROUND: u8 = 11;

const EQUALS: u8 = 13;

const COLON: u8 = 15;

// A function of this file takes the walk, the place of its word, its names (an offset and how many, or `Items`) and the offset where it reads on. Each
// passes on what it has read one by one, since the next needs another part of it: a struct for a step would be made and unpacked once.

// ---- functions

// The type of a function's names is there: they are bound, if there is room, and its body is wanted behind a dot.
fn bind_function(
    text: &[u8],
    work: &mut [u16],
    h: Walk,
    place: usize,
    from: usize,
    count: usize,
    ty: u16,
    at: usize,
) -> Result<Walk, Refusal>
    requires { (CanBound text.now work.old h ty at) × (NamesStand name_at spaced text.now from count × (count < 65536)) }
    ensures { EnterSays text.now work.old h (bound_entry text.now place from count ty at) result work.new }
{
    if !entries::has_room(h.top, count) {
        return Err(Reason::TextLimit.at(place));
    }
    let dot = looks::look(text, at);
    bound::bind_names(text, work, from, count, h.top, ty);
    let l = Level {
        form: Form::OfFunction as u16,
        flag: 0,
        place: 0,
        count: count as u16,
        node: 0,
        ty,
        deep: 0,
        next: 0,
    };
    crate::ask(work, h, l, h.frame, h.top + count, h.waiting, dot.end)
}

// Behind a function's names: a colon, and their type.
fn function_type(
    text: &[u8],
    work: &mut [u16],
    h: Walk,
    place: usize,
    from: usize,
    count: usize,
    at: usize,
) -> Result<Walk, Refusal>
    requires { (CanEnter text.now work.old h) × (ReadableFrom text.now at × (NamesStand name_at spaced text.now from count × (count < 65536))) }
    ensures { EnterSays text.now work.old h (typed_entry text.now place from count at) result work.new }
{
    let colon = looks::look(text, at);
    let t = looks::type_behind(text, work, colon.end, h.more - 1, h.frame, h.top)?;
    bind_function(text, work, h, place, from, count, t.ty, t.end)
}

// ---- functions whose variable is taken apart

// The type of the variable is there: it is bound, if there is room, and the function waits for its body, in which the list is taken apart.
fn bind_pair(
    text: &[u8],
    work: &mut [u16],
    h: Walk,
    place: usize,
    items: Items,
    ty: u16,
    at: usize,
) -> Result<Walk, Refusal>
    requires { (CanBound text.now work.old h ty at) × ListStands text.now items.round items.from items.count }
    ensures { EnterSays text.now work.old h (pair_bound_entry text.now place items.round items.from items.count ty at) result work.new }
{
    if !entries::has_room(h.top, 1) {
        return Err(Reason::TextLimit.at(place));
    }
    bound::bind_name(work, h.top, items.round, ty);
    let l = Level {
        form: Form::OfFunction as u16,
        flag: 0,
        place: 0,
        count: 1,
        node: 0,
        ty,
        deep: 0,
        next: 0,
    };
    let n = crate::below(work, h, l, h.frame, h.top + 1, h.waiting, at);
    lists::list_in(text, work, n, items, at)
}

// Behind the colon: the type of the variable.
fn pair_type(
    text: &[u8],
    work: &mut [u16],
    h: Walk,
    place: usize,
    items: Items,
    at: usize,
) -> Result<Walk, Refusal>
    requires { (CanEnter text.now work.old h) × (ReadableFrom text.now at × ListStands text.now items.round items.from items.count) }
    ensures { EnterSays text.now work.old h (pair_typed_entry text.now place items.round items.from items.count at) result work.new }
{
    let t = looks::type_behind(text, work, at, h.more - 1, h.frame, h.top)?;
    bind_pair(text, work, h, place, items, t.ty, t.end)
}

// Behind `fun (`, whose parenthesis is the first word from an offset on: a list.
fn pair_from(
    text: &[u8],
    work: &mut [u16],
    h: Walk,
    place: usize,
    round: usize,
    start: usize,
    at: usize,
) -> Result<Walk, Refusal>
    requires { (CanEnter text.now work.old h) × (Opens text.now round start at) }
    ensures { EnterSays text.now work.old h (pair_entry text.now place start) result work.new }
{
    let x = names::count_listed(text, at)?;
    let behind = lists::closed(text, x.end, COLON)?;
    let items = Items {
        round,
        from: at,
        count: x.count,
    };
    pair_type(text, work, h, place, items, behind)
}

// Behind `fun`: names, or names in parentheses.
pub fn function_from(
    text: &[u8],
    work: &mut [u16],
    h: Walk,
    start: usize,
    at: usize,
) -> Result<Walk, Refusal>
    requires { (CanEnter text.now work.old h) × (CanNames text.now h start at) }
    ensures { EnterSays text.now work.old h (function_entry text.now h.at) result work.new }
{
    let w = words::word_at(text, at);
    if w.kind == ROUND {
        return pair_from(text, work, h, start, w.start, at, w.end);
    }
    let x = names::count_names(text, at)?;
    function_type(text, work, h, start, at, x.count, x.end)
}

// ---- fixed points

// The type of a fixed point's name is there: it is bound, if there is room, and its body is wanted behind a dot.
fn bind_fix(
    text: &[u8],
    work: &mut [u16],
    h: Walk,
    place: usize,
    name: usize,
    ty: u16,
    at: usize,
) -> Result<Walk, Refusal>
    requires { (CanBound text.now work.old h ty at) × (NameStands text.now name) }
    ensures { EnterSays text.now work.old h (fix_bound_entry text.now place name ty at) result work.new }
{
    if !entries::has_room(h.top, 1) {
        return Err(Reason::TextLimit.at(place));
    }
    let dot = looks::look(text, at);
    bound::bind_name(work, h.top, name, ty);
    let l = Level {
        form: Form::OfFix as u16,
        flag: 0,
        place: name as u16,
        count: 0,
        node: 0,
        ty,
        deep: 0,
        next: 0,
    };
    crate::ask(work, h, l, h.frame, h.top + 1, h.waiting, dot.end)
}

// Behind a fixed point's name: a colon, and its type.
fn fix_type(
    text: &[u8],
    work: &mut [u16],
    h: Walk,
    place: usize,
    name: usize,
    at: usize,
) -> Result<Walk, Refusal>
    requires { (CanEnter text.now work.old h) × (ReadableFrom text.now at × (NameStands text.now name)) }
    ensures { EnterSays text.now work.old h (fix_typed_entry text.now place name at) result work.new }
{
    let colon = looks::look(text, at);
    let t = looks::type_behind(text, work, colon.end, h.more - 1, h.frame, h.top)?;
    bind_fix(text, work, h, place, name, t.ty, t.end)
}

// Behind `fix`: a name.
pub fn fix_from(
    text: &[u8],
    work: &mut [u16],
    h: Walk,
    start: usize,
    at: usize,
) -> Result<Walk, Refusal>
    requires { (CanEnter text.now work.old h) × (CanNames text.now h start at) }
    ensures { EnterSays text.now work.old h (fix_entry text.now h.at) result work.new }
{
    let x = names::name_at(text, at)?;
    fix_type(text, work, h, start, x.place, x.end)
}

// ---- names for terms

// The value of a name is wanted behind an equals sign.
fn ask_value(
    text: &[u8],
    work: &mut [u16],
    h: Walk,
    place: usize,
    name: usize,
    at: usize,
) -> Result<Walk, Refusal>
    requires { (CanEnter text.now work.old h) × (ReadableFrom text.now at × ((NameStands text.now name) × (place ≤ length text.now))) }
    ensures { EnterSays text.now work.old h (value_entry text.now place name at) result work.new }
{
    let equals = looks::look(text, at);
    let l = Level {
        form: Form::ValueOfName as u16,
        flag: 0,
        place: place as u16,
        count: 0,
        node: 0,
        ty: 0,
        deep: 0,
        next: name as u16,
    };
    crate::ask(work, h, l, h.frame, h.top, h.waiting, equals.end)
}

// The value of names in parentheses is wanted, behind the equals sign.
fn ask_values(
    text: &[u8],
    work: &mut [u16],
    h: Walk,
    place: usize,
    from: usize,
    count: usize,
    at: usize,
) -> Result<Walk, Refusal>
    requires { (CanEnter text.now work.old h) × (ReadableFrom text.now at × ((place ≤ length text.now) × (NamesStand head_at behind text.now from count × (count < 65536)))) }
    ensures { EnterSays text.now work.old h (values_entry text.now place from count at) result work.new }
{
    let l = Level {
        form: Form::ValueOfNames as u16,
        flag: 0,
        place: place as u16,
        count: count as u16,
        node: 0,
        ty: 0,
        deep: 0,
        next: from as u16,
    };
    crate::ask(work, h, l, h.frame, h.top, h.waiting, at)
}

// Behind `let (`, whose parenthesis is the first word from an offset on: a list.
fn names_from(
    text: &[u8],
    work: &mut [u16],
    h: Walk,
    place: usize,
    start: usize,
    at: usize,
) -> Result<Walk, Refusal>
    requires { (CanEnter text.now work.old h) × ((place ≤ length text.now) × ((Lexed text.now at) × ((behind (from text.now start) ≡ from text.now at) × (length (from text.now at) < length (from text.now start))))) }
    ensures { EnterSays text.now work.old h (names_entry text.now place start) result work.new }
{
    let x = names::count_listed(text, at)?;
    let behind = lists::closed(text, x.end, EQUALS)?;
    ask_values(text, work, h, place, at, x.count, behind)
}

// Behind `let` at a place: a name, or names in parentheses.
pub fn let_from(
    text: &[u8],
    work: &mut [u16],
    h: Walk,
    place: usize,
    at: usize,
) -> Result<Walk, Refusal>
    requires { (CanEnter text.now work.old h) × ((place ≤ length text.now) × (Lexed text.now at)) }
    ensures { EnterSays text.now work.old h (let_entry text.now place at) result work.new }
{
    let w = words::word_at(text, at);
    if w.kind == ROUND {
        return names_from(text, work, h, place, at, w.end);
    }
    let x = names::name_at(text, at)?;
    ask_value(text, work, h, place, x.place, x.end)
}
