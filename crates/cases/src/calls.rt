// Opening a case; enter, settle and query.
ghost use Rattle.std.specs.Prelude.{◌≡◌, List, [], None, MatchResult};
ghost use Rattle.game.specs.Goals.{goal_in};
ghost use Rattle.law.specs.Worlds.{opened};
ghost use Rattle.law.specs.Refusals.{no_board};
ghost use Rattle.game.specs.declared.fault.Stop.TheVariants.{Memory};
ghost use Rattle.law.specs.declared.call.Call.TheVariants.{Enter, Settle, Query};
ghost use Rattle.cases.specs.Shows.{model, Calls, numbered, answered, Admits, Truth};

use crate::case::Case;
use boards::Board;
use game::fault::{Fault, Reason, Stop};
use game::goal::{Goal, Word};
use game::system::System;
use goals::word::{is_earlier, is_known};
use std::alloc::{AllocError, Global};

// Goal f of a list, the goal true past its end.
pub(crate) fn goal_at(goals: &[Goal], f: usize) -> Goal
    ensures { result ≡ goal_in goals.now f }
{
    goals.get(f).copied().unwrap_or(Goal::True)
}

// A system and a board on which no case could be opened for want of memory.
#[derive(Drop)]
pub struct Unopened<S, B> {
    pub system: S,
    pub board: B,
}

impl<S: Drop, B: Drop> From<Unopened<S, B>> for Stop {
    ghost from_gives = { λ _ stop. stop ≡ Memory };

    fn from(_: Unopened<S, B>) -> Stop {
        Stop::Memory
    }
}

impl<S: System, B: Board> Case<S, B> {
    // A case without goals, sheet or plays, whatever the rows hold.
    pub fn open(heap: Global, system: S, board: B) -> Result<Self, Unopened<S, B>>
        ensures { MatchResult result (λ x. (x.system ≡ system) × (x.out ≡ 0) × (model B.Board.shows x ≡ (opened (B.Board.shows board)).model)) (λ e. (e.system ≡ system) × (e.board ≡ board)) }
    {
        match Vec::with_capacity(heap, 64) {
            Ok(goals) => Ok(Case {
                system,
                board,
                goals,
                settled: 0,
                sheet: None,
                out: 0,
            }),
            Err(_) => Err(Unopened { system, board }),
        }
    }

    pub fn system(&self) -> &S
        ensures { result.now ≡ self.now.system }
    {
        &self.system
    }

    // The board has no row, or another number of states than the system.
    pub fn is_unfit(&self) -> bool
        ensures { result ≡ no_board (S.System.means self.now.system) (model B.Board.shows self.now) }
    {
        self.board.rows() == 0 || self.board.states() != self.system.states()
    }

    // Whether a settled goal is granted at a state.
    fn ask(&self, goal: usize, state: usize) -> Result<bool, Fault>
        ensures { Calls (S.System.means self.now.system) self.now.out (model B.Board.shows self.now) (Query goal state) (answered result) (model B.Board.shows self.now) }
    {
        if self.is_unfit() {
            return Err(Fault::from(Reason::NoBoard));
        }
        if goal >= self.goals.len() {
            return Err(Fault::from(Reason::NoSuchGoal));
        }
        if goal >= self.settled {
            return Err(Fault::from(Reason::NotSettled));
        }
        if state >= self.system.states() {
            return Err(Fault::from(Reason::NoSuchState));
        }
        Ok(self.board.has(goal, state))
    }

    // Whether a settled goal is granted at a state. On a case that calls have led to, yes says that the goal's whole formula holds there,
    // and no, of X, G and U, that the group has no strategy that ensures it.
    pub fn query(&self, goal: usize, state: usize) -> Result<bool, Fault>
        ensures steps { Calls (S.System.means self.now.system) self.now.out (model B.Board.shows self.now) (Query goal state) (answered result) (model B.Board.shows self.now) }
        ensures truth { Truth (S.System.means self.now.system) self.now.out (model B.Board.shows self.now) (Query goal state) (answered result) }
    {
        self.ask(goal, state)
    }

    // The goal of a word, if it can be entered.
    fn admit(&self, word: Word) -> Result<Goal, Fault>
        ensures { Admits (S.System.means self.now.system) (model B.Board.shows self.now) word result }
    {
        if self.is_unfit() {
            return Err(Fault::from(Reason::NoBoard));
        }
        if self.goals.len() >= self.board.rows() {
            return Err(Fault::from(Reason::NoRow));
        }
        let goal = Goal::try_from(word)?;
        if !is_earlier(self.goals.len(), goal) {
            return Err(Fault::from(Reason::NotEarlier));
        }
        if !is_known(&self.system, goal) {
            return Err(Fault::from(Reason::NotKnown));
        }
        Ok(goal)
    }

    // Adds the goal of a word, and gives its number.
    pub fn enter(&mut self, word: Word) -> Result<usize, Fault>
        ensures steps { Calls (S.System.means self.old.system) self.old.out (model B.Board.shows self.old) (Enter word) (numbered result) (model B.Board.shows self.new) }
        ensures same { self.new.system ≡ self.old.system }
        ensures out { self.new.out ≡ self.old.out }
    {
        let goal = self.admit(word)?;
        let number = self.goals.len();
        self.goals.push_reserved(goal);
        Ok(number)
    }
}
