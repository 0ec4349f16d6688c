// Plans of a group in a system: where a goal is granted, with ranks and moves, and the lowest replies against it.
#![tactic(auto)]

pub mod objective;
pub mod plan;
pub mod reply;
pub mod sets;
pub mod side;
mod writing;
