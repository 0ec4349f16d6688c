// What has been read of a file.
use crate::stage::Stage;
use game::goal::Word;
use systems::agent::Agent;
use systems::line::{Condition, Label, LocalState, Rule};

// The numbers of the system word; the agents that are complete, and the product of the numbers of local states of the agents so far; of
// the agent under way its local states, masks and rule lines; the starts, label lines and goal words; of the line under way its number
// (the next local state, or the atom), its conditions so far, and how many are to come.
// The line under way stands beside the stage: in it, each clause and law that names a stage would name the line's numbers too.
#[derive(Drop)]
pub struct Reader {
    pub stage: Stage,
    pub n: u8,
    pub atoms: u8,
    pub agents: Vec<Agent>,
    pub states: u16,
    pub locals: u8,
    pub masks: Vec<u8>,
    pub rules: Vec<Rule>,
    pub starts: Vec<u16>,
    pub labels: Vec<Label>,
    pub goals: Vec<Word>,
    pub line: u8,
    pub tests: Vec<Condition>,
    pub wants: Vec<LocalState>,
    pub left: u8,
}
