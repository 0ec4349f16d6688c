// Verdicts on the goals of a case, and what is printed of them.
#![tactic(auto)]

pub mod file;
pub mod judge;
pub mod line;
pub mod report;
