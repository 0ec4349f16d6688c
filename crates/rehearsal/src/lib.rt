// Lists of calls run on a case, and the law over them.
#![tactic(auto)]

mod desk;
pub mod rehearse;
mod turn;
