// The set of a goal, over the rows of its operands.
#![tactic(auto)]

mod common;
pub mod evaluate;
mod plain;
mod rows;
pub mod word;
