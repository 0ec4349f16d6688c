// Every question about a system, for numbers that are known and not known.
use crate::plain::{Plain, choices_of};
use crate::random::Random;
use game::system::System;

// Which question was answered otherwise, and at which numbers.
#[derive(Clone, Copy, Debug)]
pub enum Asked {
    Sizes,
    Allowed(usize, usize, usize),
    Next(usize, usize),
    Look(usize, usize),
    Holds(usize, usize),
    Start(usize),
}

// A system and what it should answer.
#[derive(Drop)]
struct Pair<'a, S: System> {
    system: &'a S,
    plain: &'a Plain,
}

impl<S: System> Pair<'_, S> {
    // Whether both answer the same.
    fn agree(&self, asked: Asked) -> bool {
        let Pair { system, plain } = *self;
        match asked {
            Asked::Sizes => {
                system.agents() == plain.agents
                    && system.states() == plain.states.len()
                    && system.atoms() == plain.atoms
            }
            Asked::Allowed(agent, state, action) => {
                system.allowed(agent, state, action) == plain.allowed(agent, state, action)
            }
            Asked::Next(state, choice) => system.next(state, choice) == plain.next(state, choice),
            Asked::Look(agent, state) => system.look(agent, state) == plain.look(agent, state),
            Asked::Holds(atom, state) => system.holds(atom, state) == plain.holds(atom, state),
            Asked::Start(state) => system.start(state) == plain.start(state),
        }
    }

    fn differs(&self, asked: Asked) -> Option<Asked> {
        (!self.agree(asked)).then_some(asked)
    }

    fn first_of_agent(&self, agent: usize, state: usize) -> Option<Asked> {
        (0..7)
            .find_map(|action| self.differs(Asked::Allowed(agent, state, action)))
            .or_else(|| self.differs(Asked::Look(agent, state)))
    }

    fn first_of_state(&self, state: usize) -> Option<Asked> {
        let agents = self.plain.agents.saturating_add(2);
        let atoms = self.plain.atoms.saturating_add(2);
        let choices = choices_of(self.plain.agents).saturating_add(3);
        (0..agents)
            .find_map(|agent| self.first_of_agent(agent, state))
            .or_else(|| (0..atoms).find_map(|atom| self.differs(Asked::Holds(atom, state))))
            .or_else(|| self.differs(Asked::Start(state)))
            .or_else(|| (0..choices).find_map(|choice| self.differs(Asked::Next(state, choice))))
    }

    fn first_of_far(&self, random: &mut Random) -> Option<Asked> {
        let (x, y, z) = (random.far(), random.far(), random.far());
        self.differs(Asked::Allowed(x, y, z))
            .or_else(|| self.differs(Asked::Next(x, y)))
            .or_else(|| self.differs(Asked::Look(x, y)))
            .or_else(|| self.differs(Asked::Holds(x, y)))
            .or_else(|| self.differs(Asked::Start(x)))
    }
}

impl Random {
    // A number far from all that is known, or a small one.
    fn far(&mut self) -> usize {
        match self.below(3) {
            0 => self.word() as usize,
            1 => self.below(70000),
            _ => self.below(8),
        }
    }
}

// The first question that the system answers otherwise.
pub(crate) fn first_otherwise<S: System>(
    system: &S,
    plain: &Plain,
    random: &mut Random,
) -> Option<Asked> {
    let pair = Pair { system, plain };
    let states = plain.states.len().saturating_add(2);
    pair.differs(Asked::Sizes)
        .or_else(|| (0..states).find_map(|state| pair.first_of_state(state)))
        .or_else(|| (0..20).find_map(|_| pair.first_of_far(random)))
}
