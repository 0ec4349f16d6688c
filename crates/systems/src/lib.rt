// Agents' systems and listed games, and any system written out as a table.
#![tactic(auto)]

pub mod agent;
pub mod agents;
pub mod agents_system;
pub mod check;
pub mod line;
pub mod listed;
pub mod listed_system;
pub mod lists;
pub mod sizes;
pub mod table;
pub mod table_system;
