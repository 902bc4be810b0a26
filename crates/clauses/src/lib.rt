// The table of clauses of a text in the working memory. Refusals 32, 34 and 36.
#![tactic(auto)]

pub mod cells;
pub mod follows;
pub mod groups;
pub mod meant;
pub mod numbers;
pub mod rows;
pub mod texts;
