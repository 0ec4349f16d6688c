// A second case, over the plain reading: what each call should say.
use crate::ask::{Ask, Said};
use crate::goal_word::{goal_of, is_known, operands};
use crate::plain::Plain;
use crate::refusal::{Refusal, Wrong};
use crate::settled::Settled;
use crate::sheet::Sheet;
use game::fault::Reason;
use game::goal::{Goal, Word};
use std::alloc::{AllocError, Global};

// The board has so many rows, of so many states.
#[derive(Drop)]
pub struct Second {
    pub rows: usize,
    pub width: usize,
    pub goals: Vec<Goal>,
    pub settled: Settled,
    sheet: Option<Sheet>,
}

impl Second {
    pub(crate) fn new(heap: Global, plain: Plain, rows: usize, width: usize) -> Second {
        Second {
            rows,
            width,
            goals: Vec::new(heap),
            settled: Settled::new(heap, plain),
            sheet: None,
        }
    }

    pub(crate) fn plain(&self) -> &Plain {
        &self.settled.plain
    }

    pub(crate) fn states(&self) -> usize {
        self.plain().states.len()
    }

    fn check_board(&self) -> Result<(), Refusal> {
        if self.rows == 0 || self.width != self.states() {
            return Err(Refusal::of_call(Reason::NoBoard));
        }
        Ok(())
    }

    fn check_state(&self, state: usize) -> Result<(), Refusal> {
        if state >= self.states() {
            return Err(Refusal::of_call(Reason::NoSuchState));
        }
        Ok(())
    }

    fn goal(&self, goal: usize) -> Result<Goal, Refusal> {
        match self.goals.get(goal) {
            Some(goal) => Ok(*goal),
            None => Err(Refusal::of_call(Reason::NoSuchGoal)),
        }
    }

    fn sheet(&self) -> Result<&Sheet, Refusal> {
        match &self.sheet {
            Some(sheet) => Ok(sheet),
            None => Err(Refusal::of_call(Reason::NoSheet)),
        }
    }

    // The goal of a word, or the first test that the word does not pass.
    fn entering(&self, word: Word) -> Result<Goal, Refusal> {
        let count = self.goals.len();
        self.check_board()?;
        if count >= self.rows {
            return Err(Refusal::of_call(Reason::NoRow));
        }
        let Some(goal) = goal_of(word) else {
            return Err(Refusal::of_call(Reason::NotAGoal));
        };
        if operands(goal)
            .iter()
            .flatten()
            .any(|operand| usize::from(*operand) >= count)
        {
            return Err(Refusal::of_call(Reason::NotEarlier));
        }
        if !is_known(goal, self.plain().agents, self.plain().atoms) {
            return Err(Refusal::of_call(Reason::NotKnown));
        }
        Ok(goal)
    }

    fn enter(&mut self, word: Word) -> Result<usize, Wrong> {
        let goal = self.entering(word)?;
        let number = self.goals.len();
        self.goals.push(goal)?;
        Ok(number)
    }

    fn settle(&mut self) -> Result<(), Wrong> {
        self.check_board()?;
        match self.goals.get(self.settled.count()) {
            Some(goal) => self.settled.settle(*goal),
            None => Err(Wrong::Refused(Refusal::of_call(Reason::AllSettled))),
        }
    }

    fn query(&self, goal: usize, state: usize) -> Result<bool, Wrong> {
        self.check_board()?;
        self.goal(goal)?;
        let set = self.settled.set_of(goal)?;
        self.check_state(state)?;
        Ok(set.has(state))
    }

    fn plan(&mut self, goal: usize) -> Result<(), Wrong> {
        self.check_board()?;
        let planned = self.goal(goal)?;
        self.settled.set_of(goal)?;
        self.sheet = Some(self.settled.sheet(planned)?);
        Ok(())
    }

    // The rank at a granted state, and the move.
    fn advise(&self, state: usize) -> Result<Option<Said>, Wrong> {
        self.check_board()?;
        let sheet = self.sheet()?;
        self.check_state(state)?;
        if !sheet.grants(state) {
            return Err(Wrong::Refused(Refusal::of_call(Reason::Denied)));
        }
        Ok(
            sheet
                .rank(state)
                .zip(sheet.advance(state))
                .map(|(rank, choice)| Said::Entry(rank, choice)),
        )
    }

    // The rank at a denied state, and the reply to an allowed choice of the group.
    fn reply(&self, state: usize, choice: usize) -> Result<Option<Said>, Wrong> {
        self.check_board()?;
        let sheet = self.sheet()?;
        self.check_state(state)?;
        if sheet.grants(state) {
            return Err(Wrong::Refused(Refusal::of_call(Reason::Granted)));
        }
        let Some(turn) = sheet.turn(state, choice) else {
            return Err(Wrong::Refused(Refusal::of_call(Reason::NotAllowed)));
        };
        Ok(
            sheet
                .rank(state)
                .zip(sheet.reply(state, turn))
                .map(|(rank, reply)| Said::Entry(rank, reply)),
        )
    }

    // Whether there is a sheet that grants its goal at a state.
    pub(crate) fn grants(&self, state: usize) -> bool {
        self.sheet.as_ref().is_some_and(|sheet| sheet.grants(state))
    }

    fn call(&mut self, ask: Ask) -> Result<Option<Said>, Wrong> {
        match ask {
            Ask::Enter(word) => Ok(Some(Said::Number(self.enter(word)?))),
            Ask::Settle => {
                self.settle()?;
                Ok(Some(Said::Done))
            }
            Ask::Query(goal, state) => Ok(Some(Said::Told(self.query(goal, state)?))),
            Ask::Plan(goal) => {
                self.plan(goal)?;
                Ok(Some(Said::Done))
            }
            Ask::Move(state) => self.advise(state),
            Ask::Reply(state, choice) => self.reply(state, choice),
        }
    }

    // What a call should say. Nothing is right where the sheet has no entry, and it has one at every state.
    pub(crate) fn say(&mut self, ask: Ask) -> Result<Option<Said>, AllocError> {
        match self.call(ask) {
            Ok(said) => Ok(said),
            Err(Wrong::Refused(refusal)) => Ok(Some(Said::Refused(refusal))),
            Err(Wrong::Memory) => Err(AllocError),
        }
    }
}
