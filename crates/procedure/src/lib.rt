// Procedure files: an agents' system and its goals, as words.
#![tactic(auto)]

mod kind;
pub mod laws;
pub mod procedure;
mod reader;
pub mod reading;
mod records;
mod stage;
mod step;
pub mod word;
