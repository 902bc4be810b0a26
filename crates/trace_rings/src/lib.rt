// The outputs that look at something within the tick, and the lowest input on a ring that no register breaks.
#![tactic(auto)]

pub mod list;
pub mod ring;
