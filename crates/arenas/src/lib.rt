// Games written out in lists: what it costs to reach a goal from each state, and who can force it.
#![tactic(auto)]

pub mod arena;
mod best;
pub mod contest;
pub mod entry;
mod fast;
mod moves;
pub mod settle;
pub mod sheet;
pub mod turn;
