// The lists of a listed game.
use crate::line::MoveLine;

// Numbers of agents, states and atoms; allowed masks and looks (entry state × agents + agent), marks (a state's atoms, bit p for atom p),
// starts (nonzero for yes), and move lines.
#[derive(Clone, Copy)]
pub struct Lists<'a> {
    pub agents: usize,
    pub states: usize,
    pub atoms: usize,
    pub masks: &'a [u8],
    pub looks: &'a [u16],
    pub marks: &'a [u32],
    pub starts: &'a [u8],
    pub moves: &'a [MoveLine],
}
