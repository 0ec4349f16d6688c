// Lists of calls, with what each should say.
use crate::ask::{Ask, Said, hear};
use crate::goal_word::is_strategic;
use crate::plain::choices_of;
use crate::random::Random;
use crate::second::Second;
use boards::Board;
use cases::case::Case;
use game::system::System;
use std::alloc::{AllocError, Global};

// A call, and what it should say.
#[derive(Clone, Copy, Debug)]
pub struct Step {
    pub ask: Ask,
    pub said: Option<Said>,
}

// The calls that a second case was asked.
#[derive(Drop)]
pub struct Session {
    heap: Global,
    pub second: Second,
    pub steps: Vec<Step>,
}

impl Session {
    fn new(heap: Global, second: Second) -> Session {
        Session {
            heap,
            second,
            steps: Vec::new(heap),
        }
    }

    fn ask(&mut self, ask: Ask) -> Result<(), AllocError> {
        let said = self.second.say(ask)?;
        self.steps.push(Step { ask, said })?;
        Ok(())
    }

    // Enters goals that all can be entered, and settles them.
    fn settle_goals(&mut self, random: &mut Random, count: usize) -> Result<(), AllocError> {
        for k in 0..count {
            let word = random.goal_word(self.second.plain(), k);
            self.ask(Ask::Enter(word))?;
        }
        for _ in 0..count {
            self.ask(Ask::Settle)?;
        }
        Ok(())
    }

    // Asks for every goal at every state.
    fn query_all(&mut self) -> Result<(), AllocError> {
        for goal in 0..self.second.goals.len() {
            for state in 0..self.second.states() {
                self.ask(Ask::Query(goal, state))?;
            }
        }
        Ok(())
    }

    // Asks for the sheet of a goal: every move, and the reply to every choice.
    fn read_sheet(&mut self, goal: usize) -> Result<(), AllocError> {
        self.ask(Ask::Plan(goal))?;
        for state in 0..self.second.states() {
            self.ask(Ask::Move(state))?;
            let choices = if self.second.grants(state) {
                1
            } else {
                choices_of(self.second.plain().agents).min(64)
            };
            for choice in 0..choices {
                self.ask(Ask::Reply(state, choice))?;
            }
        }
        Ok(())
    }

    fn read_sheets(&mut self) -> Result<(), AllocError> {
        let strategic: Vec<usize> = self
            .second
            .goals
            .iter()
            .enumerate()
            .filter(|(_, goal)| is_strategic(**goal))
            .map(|(number, _)| number)
            .collect(self.heap)?;
        for goal in strategic {
            self.read_sheet(goal)?;
        }
        Ok(())
    }

    // Goals, their sets and their sheets.
    pub(crate) fn whole(
        random: &mut Random,
        second: Second,
        count: usize,
    ) -> Result<Session, AllocError> {
        let mut session = Session::new(random.heap, second);
        session.settle_goals(random, count)?;
        session.query_all()?;
        session.read_sheets()?;
        Ok(session)
    }

    // Calls in any order, with numbers that are known and not known.
    pub(crate) fn any(
        random: &mut Random,
        second: Second,
        count: usize,
    ) -> Result<Session, AllocError> {
        let mut session = Session::new(random.heap, second);
        for _ in 0..count {
            let ask = random.ask(&session.second);
            session.ask(ask)?;
        }
        Ok(session)
    }

    // Makes the calls on a case of the system and the board; gives the first that says something else. A case that has no memory differs
    // from the first call on.
    pub(crate) fn replay<S: System + Drop, B: Board + Drop>(
        &self,
        system: S,
        board: B,
    ) -> Option<usize> {
        let Ok(mut case) = Case::open(self.heap, system, board) else {
            return Some(0);
        };
        self.steps.iter().position(|step| Some(hear(self.heap, &mut case, step.ask)) != step.said)
    }
}

impl Random {
    // A number that is mostly below n, or just past it.
    fn near(&mut self, n: usize) -> usize {
        if self.once_in(24) {
            return self.word() as usize;
        }
        self.below(n.saturating_add(2))
    }

    // Any call.
    fn ask(&mut self, second: &Second) -> Ask {
        let plain = second.plain();
        let goals = second.goals.len();
        let states = plain.states.len();
        match self.below(10) {
            0 => Ask::Enter(self.any_word(plain, goals)),
            1 | 2 => Ask::Enter(self.goal_word(plain, goals)),
            3 | 4 => Ask::Settle,
            5 => Ask::Query(self.near(goals), self.near(states)),
            6 | 7 => Ask::Plan(self.near(goals)),
            8 => Ask::Move(self.near(states)),
            _ => Ask::Reply(self.near(states), self.near(choices_of(plain.agents))),
        }
    }
}
