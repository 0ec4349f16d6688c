// What a procedure file holds.
use game::goal::Word;
use systems::agents::AgentsSystem;

#[derive(Drop)]
pub struct Procedure {
    pub system: AgentsSystem,
    pub goals: Vec<Word>,
}
