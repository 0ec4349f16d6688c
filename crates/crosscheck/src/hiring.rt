// Agents' systems at random.
use crate::crew::{Crew, Guarded, Member, Test, states_of};
use crate::listing::after;
use crate::random::Random;
use std::alloc::AllocError;

// The most agents, local states of each and states that a system may have.
#[derive(Clone, Copy)]
pub struct Limits {
    pub agents: usize,
    pub locals: usize,
    pub states: usize,
}

// What the rules of an agent speak of: so many agents, and so many local states of agent 0 and of its own.
#[derive(Clone, Copy)]
pub struct Scope {
    pub agents: usize,
    pub first: usize,
    pub own: usize,
}

impl Random {
    fn test(&mut self, scope: Scope) -> Test {
        match self.below(4) {
            0 => Test::Own(self.byte(scope.own)),
            1 => Test::First(self.byte(scope.first)),
            _ => Test::Action {
                agent: self.byte(scope.agents),
                value: self.byte(4),
            },
        }
    }

    // A rule; every second one leads from a local state to the one after it.
    fn rule(&mut self, scope: Scope) -> Result<Guarded, AllocError> {
        let mut tests = Vec::new(self.heap);
        let from = self.byte(scope.own);
        let mut result = self.byte(scope.own);
        if self.once_in(2) {
            result = u8::try_from(after(usize::from(from), scope.own)).unwrap_or(0);
            tests.push(Test::Own(from))?;
        }
        for _ in 0..self.below(3) {
            tests.push(self.test(scope))?;
        }
        Ok(Guarded { result, tests })
    }

    fn member(&mut self, scope: Scope) -> Result<Member, AllocError> {
        let masks = self.list(scope.own, |random| random.mask())?;
        let mut rules = Vec::new(self.heap);
        for _ in 0..self.below(9) {
            rules.push(self.rule(scope)?)?;
        }
        Ok(Member { masks, rules })
    }

    fn members(&mut self, agents: usize, limits: Limits) -> Result<Vec<Member>, AllocError> {
        let mut members = Vec::new(self.heap);
        for _ in 0..agents {
            let drawn = self.below(limits.locals) + 1;
            let own = if states_of(&members).saturating_mul(drawn) > limits.states {
                1
            } else {
                drawn
            };
            let first = members.first().map_or(own, Member::locals);
            let scope = Scope { agents, first, own };
            members.push(self.member(scope)?)?;
        }
        Ok(members)
    }

    fn label(&mut self, crew: &Crew) -> Result<Guarded, AllocError> {
        let mut tests = Vec::new(self.heap);
        for _ in 0..self.below(4) {
            let agent = self.byte(crew.members.len());
            if let Some(member) = crew.members.get(usize::from(agent)) {
                let value = self.byte(member.locals());
                tests.push(Test::Local { agent, value })?;
            }
        }
        Ok(Guarded {
            result: self.byte(crew.atoms),
            tests,
        })
    }

    // An agents' system within the limits.
    pub(crate) fn crew(&mut self, limits: Limits) -> Result<Crew, AllocError> {
        let agents = self.below(limits.agents) + 1;
        let atoms = self.below(5);
        let members = self.members(agents, limits)?;
        let states = states_of(&members);
        let count = self.below(3) + 1;
        let mut crew = Crew {
            atoms,
            members,
            starts: self.list(count, |random| random.below(states))?,
            labels: Vec::new(self.heap),
        };
        if crew.atoms > 0 {
            for _ in 0..self.below(8) {
                let label = self.label(&crew)?;
                crew.labels.push(label)?;
            }
        }
        Ok(crew)
    }
}
