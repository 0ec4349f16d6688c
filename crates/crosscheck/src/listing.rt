// Listed games at random, and what they answer.
use crate::plain::{Plain, Seat, State, action_of, bit, choices_of};
use crate::random::Random;
use std::alloc::{AllocError, Global};
use systems::line::MoveLine;
use systems::lists::Lists;

// The lists of a game, as the check takes them: each may be of any length, so a struct for each state would not do.
#[derive(Drop)]
pub struct Listing {
    pub agents: usize,
    pub states: usize,
    pub atoms: usize,
    pub masks: Vec<u8>,
    pub looks: Vec<u16>,
    pub marks: Vec<u32>,
    pub starts: Vec<u8>,
    pub moves: Vec<MoveLine>,
}

// Whether a move line covers every action of a choice at a state.
fn covers(line: &MoveLine, state: usize, choice: usize) -> bool {
    usize::from(line.state) == state
        && line.covers.iter().enumerate().all(|(agent, cover)| bit(
            u32::from(*cover),
            action_of(choice, agent),
        ))
}

impl Listing {
    pub(crate) fn lists(&self) -> Lists<'_> {
        Lists {
            agents: self.agents,
            states: self.states,
            atoms: self.atoms,
            masks: self.masks.as_slice(),
            looks: self.looks.as_slice(),
            marks: self.marks.as_slice(),
            starts: self.starts.as_slice(),
            moves: self.moves.as_slice(),
        }
    }

    // Where a joint choice leads: the first move line decides that covers every action.
    fn lands(&self, state: usize, choice: usize) -> usize {
        self.moves
            .iter()
            .find(|line| covers(line, state, choice))
            .map_or(state, |line| usize::from(line.next))
    }

    // The game of lists that fit each other.
    pub(crate) fn plain(&self, heap: Global) -> Result<Plain, AllocError> {
        let agents = self.agents.max(1);
        let seats = self.masks.chunks(agents).zip(self.looks.chunks(agents));
        let marks = self.marks.iter().zip(&self.starts);
        let mut states = Vec::new(heap);
        for (state, ((masks, looks), (marks, start))) in seats.zip(marks).enumerate() {
            states.push(State {
                seats: masks
                    .iter()
                    .zip(looks)
                    .map(|(mask, look)| Seat {
                        mask: *mask,
                        look: *look,
                    })
                    .collect(heap)?,
                marks: *marks,
                is_start: *start != 0,
                nexts: (0..choices_of(self.agents))
                    .map(|choice| self.lands(state, choice))
                    .collect(heap)?,
            })?;
        }
        Ok(Plain {
            agents: self.agents,
            atoms: self.atoms,
            states,
        })
    }
}

// The number after k below n, and 0 after the last.
pub(crate) fn after(k: usize, n: usize) -> usize {
    match k.checked_add(1) {
        Some(next) if next < n => next,
        _ => 0,
    }
}

impl Random {
    fn cover(&mut self) -> u8 {
        if self.once_in(2) { 15 } else { self.byte(16) }
    }

    // Every second line leads to the state after its own.
    pub(crate) fn move_line(&mut self, states: usize) -> MoveLine {
        let state = self.below(states);
        let next = if self.once_in(2) {
            after(state, states)
        } else {
            self.below(states)
        };
        MoveLine {
            state: u16::try_from(state).unwrap_or(0),
            covers: [
                self.cover(),
                self.cover(),
                self.cover(),
                self.cover() | 1,
                self.cover() | 1,
                self.cover() | 1,
            ],
            next: u16::try_from(next).unwrap_or(0),
        }
    }

    // A mask of one or two actions mostly.
    pub(crate) fn mask(&mut self) -> u8 {
        let one = 1 << self.byte(4);
        let other = 1 << self.byte(4);
        match self.below(5) {
            0 => self.byte(15) + 1,
            1 | 2 => one,
            _ => one | other,
        }
    }

    // The atoms that hold at a state.
    fn marks(&mut self, atoms: usize, rare: usize) -> u32 {
        let mut marks = 0;
        for atom in 0..atoms.min(28) {
            if self.once_in(rare) {
                marks |= 1 << atom;
            }
        }
        marks
    }

    fn starts(&mut self, states: usize) -> Result<Vec<u8>, AllocError> {
        let heap = self.heap;
        let sure = self.below(states);
        (0..states)
            .map(|state| {
                if state == sure || self.once_in(3) {
                    self.byte(255) + 1
                } else {
                    0
                }
            })
            .collect(heap)
    }

    // A listed game that the check accepts.
    pub(crate) fn listing(&mut self) -> Result<Listing, AllocError> {
        let agents = self.below(3) + 1;
        let most = if self.once_in(4) { 27 } else { 9 };
        let states = self.below(most) + 1;
        let atoms = self.below(5);
        let kinds = self.below(states) + 1;
        let mut masks = Vec::new(self.heap);
        let mut looks = Vec::new(self.heap);
        for _ in 0..states * agents {
            masks.push(self.mask())?;
            looks.push(u16::from(self.byte(kinds)))?;
        }
        let rare = self.below(6) + 2;
        let marks = self.list(states, |random| random.marks(atoms, rare))?;
        let starts = self.starts(states)?;
        let count = self.below(states * 6 + 1);
        let moves = self.list(count, |random| random.move_line(states))?;
        Ok(Listing {
            agents,
            states,
            atoms,
            masks,
            looks,
            marks,
            starts,
            moves,
        })
    }
}
