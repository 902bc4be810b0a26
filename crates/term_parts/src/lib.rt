// What one step of the walk over terms needs: names read and bound, variables looked up, tuples joined, pairs taken apart.
#![tactic(auto)]

pub mod apart;
pub mod bound;
pub mod halves;
pub mod joined;
pub mod names;
pub mod variables;
