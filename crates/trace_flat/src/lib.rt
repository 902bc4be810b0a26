// Ticks over a flat layout of the gates, registers and pins, laid out once before the first. What stands where is said in specs/Flat.
#![tactic(auto)]

pub mod bits;
pub mod lanes;
pub mod layout;
pub mod steps;
mod ticks;

pub use ticks::Sizes;
