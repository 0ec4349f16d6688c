// What sessions showed, and how much of it said something.
use crate::ask::{Ask, Said};
use crate::counts::{Counts, Differences};
use crate::session::{Session, Step};
use std::fmt;
use std::num::Wrapping;

// How many entries of sheets were read, and how many of them of rank 2 and more.
#[derive(Clone, Copy)]
struct Entries {
    all: Wrapping<usize>,
    deep: Wrapping<usize>,
}

impl Entries {
    fn new() -> Entries {
        Entries {
            all: Wrapping(0),
            deep: Wrapping(0),
        }
    }

    fn add(&mut self, rank: usize) {
        self.all += 1;
        if rank > 1 {
            self.deep += 1;
        }
    }
}

impl fmt::Display for Entries {
    fn fmt<W: fmt::Write>(&self, f: &mut fmt::Formatter<W>) -> fmt::Result {
        let all = self.all.0;
        let deep = self.deep.0;
        write!(f, "{all}, {deep} of rank 2 and more")
    }
}

#[derive(Drop)]
pub struct Tally {
    pub differences: Differences,
    systems: Wrapping<usize>,
    calls: Wrapping<usize>,
    // by operator
    goals: Counts,
    // by number
    refusals: Counts,
    granted: Wrapping<usize>,
    denied: Wrapping<usize>,
    rounds: Wrapping<usize>,
    common: Wrapping<usize>,
    moves: Entries,
    replies: Entries,
}

impl Tally {
    pub(crate) fn new() -> Tally {
        Tally {
            differences: Differences::new(),
            systems: Wrapping(0),
            calls: Wrapping(0),
            goals: Counts::new(),
            refusals: Counts::new(),
            granted: Wrapping(0),
            denied: Wrapping(0),
            rounds: Wrapping(0),
            common: Wrapping(0),
            moves: Entries::new(),
            replies: Entries::new(),
        }
    }

    fn add_step(&mut self, step: Step) {
        self.calls += 1;
        match (step.ask, step.said) {
            (_, Some(Said::Refused(refusal))) => self.refusals.add(refusal.number),
            (Ask::Enter(word), Some(Said::Number(_))) => self.goals.add(word.a),
            (Ask::Query(..), Some(Said::Told(true))) => self.granted += 1,
            (Ask::Query(..), Some(Said::Told(false))) => self.denied += 1,
            (Ask::Move(_), Some(Said::Entry(rank, _))) => self.moves.add(rank),
            (Ask::Reply(..), Some(Said::Entry(rank, _))) => self.replies.add(rank),
            _ => {}
        }
    }

    pub(crate) fn add(&mut self, session: &Session) {
        self.systems += 1;
        self.rounds += session.second.settled.depth.rounds;
        self.common += session.second.settled.depth.common;
        for step in &session.steps {
            self.add_step(*step);
        }
    }
}

impl fmt::Display for Tally {
    fn fmt<W: fmt::Write>(&self, f: &mut fmt::Formatter<W>) -> fmt::Result {
        let systems = self.systems.0;
        let total = self.goals.total();
        let calls = self.calls.0;
        let differences = &self.differences;
        writeln!(
            f,
            "{systems} systems, {total} goals, {calls} calls on each of two boards, {differences}"
        )?;
        let goals = std::array::from_fn::<usize, 11, _>(|operator| self.goals.of(operator));
        let granted = self.granted.0;
        let denied = self.denied.0;
        writeln!(
            f,
            "  goals by operator: {goals:?}; granted {granted}, denied {denied}"
        )?;
        let rounds = self.rounds.0;
        let common = self.common.0;
        writeln!(
            f,
            "  rounds of G and U: {rounds}; C that takes more than one step: {common}"
        )?;
        let moves = self.moves;
        let replies = self.replies;
        writeln!(f, "  moves: {moves}; replies: {replies}")?;
        let refusals = &self.refusals;
        write!(f, "  refusals:{refusals}")
    }
}
