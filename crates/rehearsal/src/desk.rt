// A case with the tokens of its plays, and calls served on it.
ghost use Rattle.std.specs.Prelude.{◌≡◌, ◌+◌, ◌<◌, ◌≤◌, [], true, false, vec_len, vec_capacity, IfOk, MatchResult};
ghost use Rattle.std.specs.List.{insert};
ghost use Rattle.law.specs.Worlds.{opened};
ghost use Rattle.law.specs.Refusals.{no_board};
ghost use Rattle.law.specs.declared.call.Call.TheVariants.{Begin, End};
ghost use Rattle.cases.specs.Shows.{model, system_of, out_of, advised};
ghost use Rattle.rehearsal.specs.Turning.{call_of};
ghost use Rattle.rehearsal.specs.Served.{Served, EndsNothing, Ran, Rehearsed, trial};

use crate::turn::{Turn, Turned, turn_play};
use boards::Board;
use cases::advice::Advice;
use cases::case::Case;
use cases::outcome::{HandedBack, Outcome, Play};
use game::fault::{Fault, Reason, Stop};
use game::system::System;
use law::call::{Answer, Call};
use std::alloc::{AllocError, Global};

// The tokens stand in the order of the plays under way, and there is room for as many as a case begins.
pub(crate) struct Desk<S: System, B: Board> {
    pub(crate) case: Case<S, B>,
    pub(crate) plays: Vec<Play>,
    ghost counted: { out_of case ≡ vec_len plays },
    ghost room: { 8 ≤ vec_capacity plays },
    // plays are under way only where the board fits the system
    ghost fit: { 0 < vec_len plays → no_board (S.System.means (system_of case)) (model B.Board.shows case) ≡ false },
}

impl<S: System + Drop, B: Board + Drop> Desk<S, B> {
    // A case that is opened on the system and the board, without plays.
    pub(crate) fn open(heap: Global, system: S, board: B) -> Result<Self, AllocError>
        ensures system { IfOk result (λ x. system_of x.case ≡ system) }
        ensures opened { IfOk result (λ x. model B.Board.shows x.case ≡ (opened (B.Board.shows board)).model) }
        ensures none { IfOk result (λ x. x.plays.items ≡ []) }
    {
        let plays = Vec::with_capacity(heap, 8)?;
        match Case::open(heap, system, board) {
            Ok(case) => Ok(Desk { case, plays }),
            Err(_) => {
                plays.destroy_empty();
                Err(AllocError)
            }
        }
    }
}

impl<S: System, B: Board> Desk<S, B> {
    fn begin(&mut self, state: usize) -> Answer
        ensures served { Served (S.System.means (system_of self.old.case)) (model B.Board.shows self.old.case) self.old.plays.items (Begin state) result (model B.Board.shows self.new.case) self.new.plays.items }
        ensures same { system_of self.new.case ≡ system_of self.old.case }
    {
        match self.case.begin(state) {
            Ok(play) => {
                self.plays.push_reserved(Play::Move(play));
                Answer::Done
            }
            Err(fault) => Answer::Refused(fault),
        }
    }

    fn turn(&mut self, i: usize, turn: Turn) -> Answer
        ensures served { Served (S.System.means (system_of self.old.case)) (model B.Board.shows self.old.case) self.old.plays.items (call_of turn i) result (model B.Board.shows self.new.case) self.new.plays.items }
        ensures same { self.new.case ≡ self.old.case }
    {
        if i >= self.plays.len() {
            return Answer::Idle;
        }
        let taken = self.plays.remove(i);
        let Turned { answer, play } = turn_play(&self.case, taken, turn);
        put_in(&mut self.plays, i, play);
        answer
    }

    // End of a play that is not there.
    fn end_nothing(&self) -> Answer
        ensures { EndsNothing (S.System.means (system_of self.now.case)) (model B.Board.shows self.now.case) (vec_len self.now.plays) result }
    {
        if self.case.is_unfit() {
            return Answer::Refused(Fault::from(Reason::NoBoard));
        }
        if self.plays.is_empty() {
            return Answer::Refused(Fault::from(Reason::NoPlay));
        }
        Answer::Idle
    }

    fn end(&mut self, i: usize) -> Answer
        ensures served { Served (S.System.means (system_of self.old.case)) (model B.Board.shows self.old.case) self.old.plays.items (End i) result (model B.Board.shows self.new.case) self.new.plays.items }
        ensures same { system_of self.new.case ≡ system_of self.old.case }
    {
        if i >= self.plays.len() {
            return self.end_nothing();
        }
        let taken = self.plays.remove(i);
        match self.case.end(taken) {
            Ok(Outcome { steps, met }) => Answer::Outcome(steps, met),
            Err(HandedBack { fault, play }) => {
                put_in(&mut self.plays, i, play);
                Answer::Refused(fault)
            }
        }
    }

    // One call, whichever it is. Without memory nothing changes.
    pub(crate) fn serve(&mut self, heap: Global, call: Call) -> Result<Answer, AllocError>
        ensures served { MatchResult result (λ a. Served (S.System.means (system_of self.old.case)) (model B.Board.shows self.old.case) self.old.plays.items call a (model B.Board.shows self.new.case) self.new.plays.items) (λ _. (model B.Board.shows self.new.case ≡ model B.Board.shows self.old.case) × (self.new.plays.items ≡ self.old.plays.items)) }
        ensures same { system_of self.new.case ≡ system_of self.old.case }
    {
        match call {
            Call::Enter(word) => Ok(
                self.case
                    .enter(word)
                    .map_or_else(Answer::Refused, Answer::Number),
            ),
            Call::Settle => tried(self.case.settle(heap)),
            Call::Query(goal, state) => Ok(
                self.case
                    .query(goal, state)
                    .map_or_else(Answer::Refused, Answer::Told),
            ),
            Call::Plan(goal) => tried(self.case.plan(heap, goal)),
            Call::Move(state) => Ok(advised(self.case.move_at(state))),
            Call::Reply(state, choice) => Ok(advised(self.case.reply(state, choice))),
            Call::Begin(state) => Ok(self.begin(state)),
            Call::Announce(i) => Ok(self.turn(i, Turn::Announce)),
            Call::Tell(i, reply) => Ok(self.turn(i, Turn::Tell(reply))),
            Call::End(i) => Ok(self.end(i)),
            Call::Strike(k) => Ok(
                self.case
                    .strike(k)
                    .map_or_else(Answer::Refused, |()| Answer::Done),
            ),
        }
    }

    // Serves the calls in their order, and gives their answers.
    pub(crate) fn run(&mut self, heap: Global, calls: &[Call]) -> Result<Vec<Answer>, AllocError>
        ensures rehearsed { self.old.plays.items ≡ [] → IfOk result (λ v. Rehearsed (S.System.means (system_of self.old.case)) (model B.Board.shows self.old.case) calls.now v.items) }
        ensures ran { IfOk result (λ v. Ran (S.System.means (system_of self.old.case)) (model B.Board.shows self.old.case) self.old.plays.items calls.now v.items (model B.Board.shows self.new.case) self.new.plays.items) }
    {
        let mut answers = Vec::new(heap);
        for call in calls {
            answers.push(self.serve(heap, *call)?)?;
        }
        Ok(answers)
    }

    // Ends the newest play, if there is one.
    fn end_last(&mut self) -> bool
        ensures fewer { result ≡ true → vec_len self.new.plays < vec_len self.old.plays }
        ensures none { result ≡ false → vec_len self.new.plays ≡ 0 }
    {
        let Some(play) = self.plays.pop() else {
            return false;
        };
        match self.case.end(play) {
            Ok(_) => true,
            Err(_) => unreachable!(),
        }
    }
}

impl<S: System + Drop, B: Board + Drop> Desk<S, B> {
    // Ends the plays that are left, and lets the case go.
    pub(crate) fn close(mut self) {
        while self.end_last() {}
        let Desk { case: _, plays } = self;
        plays.destroy_empty();
    }
}

fn advised(answer: Result<Advice, Fault>) -> Answer
    ensures { result ≡ advised answer }
{
    match answer {
        Ok(Advice { rank, choice }) => Answer::Entry(rank, choice),
        Err(fault) => Answer::Refused(fault),
    }
}

// The answer of a call that may want memory.
fn tried(answer: Result<(), Stop>) -> Result<Answer, AllocError>
    ensures { result ≡ trial answer }
{
    match answer {
        Ok(()) => Ok(Answer::Done),
        Err(Stop::Refused(fault)) => Ok(Answer::Refused(fault)),
        Err(Stop::Memory) => Err(AllocError),
    }
}

// Puts a token in at place i.
fn put_in(plays: &mut Vec<Play>, i: usize, play: Play)
    requires within { i ≤ vec_len plays.old }
    requires room { vec_len plays.old < vec_capacity plays.old }
    ensures items { plays.new.items ≡ insert plays.old.items i play }
    ensures len { vec_len plays.new ≡ vec_len plays.old + 1 }
    ensures capacity { vec_capacity plays.new ≡ vec_capacity plays.old }
{
    match plays.insert(i, play) {
        Ok(()) => (),
        Err(_full) => unreachable!(),
    }
}
