// A case: goals of a system are entered, settled and asked about, and planned for.
#![tactic(auto)]

pub mod advice;
pub mod calls;
pub mod case;
pub mod outcome;
pub mod plan;
pub mod play;
pub mod plays;
pub mod reply;
mod rows;
pub mod settle;
pub mod sheet;
