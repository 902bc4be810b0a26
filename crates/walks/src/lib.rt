// What the walks over a text answer: a type or type arguments with the offset behind them, or a definition that was put in. A walk that is refused
// answers a `Refusal` in their stead.
#![tactic(auto)]

// A type's number, and the offset behind the type.
#[derive(Clone, Copy, Debug, PartialEq, Eq)]
pub struct TypeEnd {
    pub ty: u16,
    pub end: usize,
}

// How many type arguments wait, and the offset behind them.
#[derive(Clone, Copy, Debug, PartialEq, Eq)]
pub struct TypesEnd {
    pub count: usize,
    pub end: usize,
}

// A definition that was put in: the offset of its body, the offset behind its name and arguments, and how many entries there are now.
#[derive(Clone, Copy, Debug, PartialEq, Eq)]
pub struct PutAt {
    pub body: usize,
    pub end: usize,
    pub top: usize,
}
