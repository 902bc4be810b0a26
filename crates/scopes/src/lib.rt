// Names in scope in the working memory, and definitions put in. Refusals 33 and 34.
#![tactic(auto)]

pub mod arguments;
pub mod entries;
pub mod frames;
pub mod named;
pub mod opened;
pub mod puts;
