// The steps of a run in the working memory: the table by terminal, sweeps, pins and ticks. What stands where is said in specs/Map.
#![tactic(auto)]

pub mod copy;
pub mod order;
pub mod pins;
pub mod table;
pub mod ticks;
