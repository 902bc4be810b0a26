// The grammar of a text, by recursive descent over lent bytes and without output: where types, terms and items end, or refusals 32 and 34.
#![tactic(auto)]

pub mod heads;
pub mod items;
pub mod names;
pub mod steps;
pub mod terms;
pub mod types;
