// The typing walk (document 01, "Numbers of the refusals": 10 to 15; document 02, L3 and L7), on type numbers. Places are node numbers.
#![tactic(auto)]

ghost use Rattle.std.specs.Prelude.{◌≡◌, ◌∷◌, ℕ, ◌+◌, ◌<◌, ◌≤◌, get_or, drop};
ghost use Rattle.calculus.specs.Walk.{Stack};
ghost use Rattle.records.specs.Forms.{rec_in};
ghost use Rattle.records.specs.Editions.{edition_by};
ghost use Rattle.binders.specs.Stacks.{bits_of, binder_of, stack_of};
ghost use Rattle.binders.specs.declared.Binders.{Binders};
ghost use Rattle.typing.specs.Steps.{constant_of, leaf_of, used_up, leave_one, between_of, closes_of, leave_two};
ghost use Rattle.typing.specs.Verdicts.{said_verdict, clash_of, checked, held, at_count, settled_of, halves, EndsAt, HeldSays, FollowsOn, FollowsHeld};
ghost use Rattle.typing.specs.Answers.{said_typing, check_of, TermAt};
ghost use Rattle.typing.specs.Walkable.{Placed, Walked, CountsOf, Names};

use answers::{Reason, Refusal};
use binders::Binders;
use records::{Node, Rule};

mod rules;

// A term's type number, the offset past it and the nodes up to there.
#[derive(Clone, Copy, Debug, PartialEq, Eq)]
pub struct Fine {
    pub ty: u8,
    pub next: usize,
    pub count: usize,
}

// A verdict, and the marks of use after it, also after a refusal: the contracts say them of every verdict. The binders themselves are as
// before, so that no level hands them back.
#[derive(Clone, Copy, Debug, PartialEq, Eq)]
pub struct Checked {
    pub verdict: Result<Fine, Refusal>,
    pub used: [u64; 2],
}

// 12 at a node, with the type number wanted and the one found.
fn clash(node: usize, wanted: u16, found: u8) -> Refusal
    ensures { result ≡ clash_of node wanted found }
{
    Refusal {
        reason: Reason::Misfit,
        place: node,
        wanted,
        found,
    }
}

// A verdict, with the marks as they are after it.
fn answered(v: Result<Fine, Refusal>, used: [u64; 2]) -> Checked
    ensures { result ≡ checked v used }
{
    Checked { verdict: v, used }
}

// ---- leaves

// The verdict on a variable, node `node`.
fn settled(u: Result<u8, Reason>, next: usize, node: usize) -> Result<Fine, Refusal>
    requires { node < 2048 }
    ensures { result ≡ settled_of u next node }
{
    match u {
        Ok(ty) => Ok(Fine {
            ty,
            next,
            count: node + 1,
        }),
        Err(why) => Err(why.at(node)),
    }
}

// A constant: 15, then 12.
fn constant(s: &[u8], n: Node, node: usize, types: usize, second: bool) -> Result<Fine, Refusal>
    requires { (node < 2048) × (types ≤ 256) }
    ensures { ((st : Stack) → said_verdict result st ≡ constant_of (rec_in s.now) types (edition_by second) n.first n.second node st) × EndsAt result n.next (node + 1) }
{
    let t = n.second;
    let Some(part) = parts::part_at(n.first) else {
        return Err(Reason::UnknownPart.at(node));
    };
    if rules::is_type_of(s, t, part, second) {
        return Ok(Fine {
            ty: t,
            next: n.next,
            count: node + 1,
        });
    }
    Err(clash(node, rules::type_number(s, types, part, second), t))
}

// A node without subterms, under `scope` binders with these sorts and marks; `ty` is the type of the one that its number names. A linear
// variable is marked whatever the answer: after a refusal nobody looks at the marks. The node's number is a parameter beside the node, here and below: the
// walk counts it, and the sheet's record does not hold it. The number of types and the edition stand beside the sheet, since only `constant` asks for them.
fn leaf(
    s: &[u8],
    n: Node,
    node: usize,
    scope: usize,
    ty: u8,
    sorts: [u64; 2],
    marks: [u64; 2],
    types: usize,
    second: bool,
) -> Checked
    requires { (scope ≤ 128) × (node < 2048) × (types ≤ 256) }
    ensures { (b : Binders) → Names b n.first scope ty sorts marks → HeldSays (held b result) (leaf_of (rec_in s.now) types (edition_by second) n.rule n.first n.second node (stack_of b)) n.next (node + 1) }
{
    let i = usize::from(n.first);
    let k = binders::slot(scope, i);
    let sort = binders::bit(sorts, k);
    let rule = n.rule;
    match rule {
        Rule::Variable => {
            let taken = binders::use_shared(scope, i, ty, sort);
            answered(settled(taken, n.next, node), marks)
        }
        Rule::LinearVariable => {
            let taken = binders::use_linear(scope, i, ty, sort, binders::bit(marks, k));
            let used = binders::with_bit(marks, k, 1);
            answered(settled(taken, n.next, node), used)
        }
        _ => answered(constant(s, n, node, types, second), marks),
    }
}

// ---- leaving a node with one subterm

// A linear function's variable, the nearest binder, has been used. Sort and mark are bits here, as `binders::bit` reads them for `binder_of`.
fn used_up(rule: Rule, sort: u8, mark: u8) -> bool
    ensures { (t : ℕ) (st : Stack) → result ≡ used_up rule (binder_of t sort mark ∷ st) }
{
    let Rule::LinearFunction = rule else {
        return true;
    };
    if sort == 0 {
        return true;
    }
    mark != 0
}

// 14, then 12.
fn after_one(
    s: &[u8],
    n: Node,
    node: usize,
    v: Result<Fine, Refusal>,
    used: bool,
) -> Result<Fine, Refusal>
    ensures { (st : Stack) → used ≡ used_up n.rule st → FollowsOn v st result (drop 1 st) (leave_one (rec_in s.now) n.rule n.first node) }
{
    let f = v?;
    let body = rules::wanted(s, n.rule, n.first);
    if !used {
        return Err(Reason::Unused.at(node));
    }
    if f.ty != body {
        return Err(clash(node, u16::from(body), f.ty));
    }
    Ok(Fine { ty: n.first, ..f })
}

// The variable, at c and of a sort, which is a bit of `Binders`, goes out of scope.
fn leave_one(s: &[u8], n: Node, node: usize, c: usize, sort: u8, x: Checked) -> Checked
    requires { c < 128 }
    ensures { (b : Binders) → sort ≡ get_or (bits_of b.sorts) c 0 → CountsOf (c + 1) (held b x) → FollowsHeld (held b x) (held (at_count b c) result) (leave_one (rec_in s.now) n.rule n.first node) }
{
    let v = x.verdict;
    let used = x.used;
    let rule = n.rule;
    let all = used_up(rule, sort, binders::bit(used, c));
    Checked {
        verdict: after_one(s, n, node, v, all),
        used,
    }
}

// ---- between two subterms

// On entering the second subterm: 12 if the first is no product at a projection, or not sharable at 1B.
fn between(s: &[u8], rule: Rule, node: usize, v: Result<Fine, Refusal>) -> Result<Fine, Refusal>
    ensures { (st : Stack) → FollowsOn v st result (halves (rec_in s.now) rule result st) (between_of (rec_in s.now) rule node) }
{
    let f = v?;
    if rules::enters(s, rule, f.ty) {
        return Ok(f);
    }
    Err(clash(node, rules::FORM, f.ty))
}

// ---- leaving a node with two subterms

// 12 if the types of the subterms, a and that of v, do not fit.
fn after_two(
    s: &[u8],
    n: Node,
    node: usize,
    a: u8,
    v: Result<Fine, Refusal>,
) -> Result<Fine, Refusal>
    ensures { (st : Stack) → FollowsOn v st result (drop (closes_of n.rule) st) (leave_two (rec_in s.now) n.rule n.first node a) }
{
    let f = v?;
    match rules::joined(s, n.rule, n.first, a, f.ty) {
        Ok(ty) => Ok(Fine { ty, ..f }),
        Err(m) => Err(clash(node, m.wanted, m.found)),
    }
}

// The variables that were bound between the two go out of scope.
fn leave_two(s: &[u8], n: Node, node: usize, a: u8, y: Checked) -> Checked
    ensures { (b : Binders) (c : ℕ) → CountsOf (c + closes_of n.rule) (held b y) → FollowsHeld (held b y) (held (at_count b c) result) (leave_two (rec_in s.now) n.rule n.first node a) }
{
    let v = y.verdict;
    let used = y.used;
    Checked {
        verdict: after_two(s, n, node, a, v),
        used,
    }
}

// ---- the walk

// The term at an offset, node `node`, under the binders in scope. Each subterm has fewer bytes left, and there are at most 64 levels.
// The marks go through the first subterm into the second. What a node binds is stored here, past the scope where it binds nothing, and
// both subterms take the one copy of the binders: it is most of what a level takes of the stack.
fn walk(s: &[u8], at: usize, node: usize, b: Binders, types: usize, second: bool) -> Checked
    requires { Placed s.now types (edition_by second) at node (stack_of b) }
    ensures { Walked s.now types (edition_by second) at node b result }
{
    let n = records::node_at(s, at);
    let mut own = b;
    let c = own.count;
    let marks = own.used;
    let sorts = own.sorts;
    if n.subterms == 0 {
        let k = binders::slot(c, usize::from(n.first));
        return leaf(s, n, node, c, own.types[k], sorts, marks, types, second);
    }
    let rule = n.rule;
    let Some(opened) = rules::opens(s, rule, n.first) else {
        return answered(Err(clash(node, rules::FORM, n.first)), marks);
    };
    let o = rules::bound(opened);
    own.types[c] = o.ty;
    own.sorts = binders::with_bit(sorts, c, o.sort);
    own.used = binders::with_bit(marks, c, 0);
    own.count = c + o.count;
    let mut x = walk(s, n.next, node + 1, own, types, second);
    let sorts_then = own.sorts;
    if n.subterms == 1 {
        return leave_one(s, n, node, c, binders::bit(sorts_then, c), x);
    }
    let first = x.verdict;
    let v = between(s, rule, node, first);
    let after = x.used;
    let Ok(f) = v else {
        return answered(v, after);
    };
    let q = rules::halves_of(s, rule, f.ty);
    let d = c + 1;
    own.types[c] = q.first;
    own.types[d] = q.second;
    own.sorts = binders::with_bit(binders::with_bit(sorts_then, c, 0), d, 0);
    own.used = binders::with_bit(binders::with_bit(after, c, 0), d, 0);
    own.count = c + rules::closes(rule);
    x = walk(s, f.next, f.count, own, types, second);
    leave_two(s, n, node, f.ty, x)
}

// The type of a sheet's term, by its number: the walk over the records of a sheet that has been read, with so many types, whose term starts
// at an offset.
pub fn check(s: &[u8], at: usize, types: usize, second: bool) -> Result<u8, Refusal>
    requires { TermAt s.now types (edition_by second) at }
    ensures { said_typing result ≡ check_of (edition_by second) s.now }
{
    let b = binders::none();
    let r = walk(s, at, 0, b, types, second);
    let f = r.verdict?;
    Ok(f.ty)
}
