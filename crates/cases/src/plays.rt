// Begin, announce, tell and end.
ghost use Rattle.std.specs.Prelude.{◌≡◌};
ghost use Rattle.game.specs.Goals.{group_of};
ghost use Rattle.law.specs.Worlds.{met_by, aim};
ghost use Rattle.law.specs.Steps.{below};
ghost use Rattle.law.specs.declared.call.Call.TheVariants.{Strike};
ghost use Rattle.cases.specs.Shows.{model, Calls, finished};
ghost use Rattle.cases.specs.Plays.{Begins, Announces, Tells, Reached, Ends};

use crate::calls::goal_at;
use crate::case::Case;
use crate::outcome::{Announced, HandedBack, Outcome, Play};
use crate::plan::entry_at;
use crate::play::{AwaitingMove, AwaitingReply};
use crate::reply::is_reply;
use boards::Board;
use game::fault::{Fault, Reason};
use game::goal::Goal;
use game::system::System;
use goals::word::group_of;
use plans::reply::land;

// Whether a play at this state, after so many steps, has met the goal: X after step 1, U where d holds, G never.
fn is_met<B: Board>(board: &B, goal: Goal, state: usize, steps: usize) -> bool
    ensures { result ≡ met_by (B.Board.shows board.now) goal state steps }
{
    match goal {
        Goal::Next(_, _) => 1 <= steps,
        Goal::Until(_, _, d) => board.has(d as usize, state),
        _ => false,
    }
}

impl<S: System, B: Board> Case<S, B> {
    // Starts a play at a granted state of the sheet.
    pub fn begin(&mut self, state: usize) -> Result<AwaitingMove, Fault>
        ensures steps { Begins (S.System.means self.old.system) self.old.out (model B.Board.shows self.old) state result self.new.out }
        ensures shows { model B.Board.shows self.new ≡ model B.Board.shows self.old }
        ensures same { self.new.system ≡ self.old.system }
    {
        if self.is_unfit() {
            return Err(Fault::from(Reason::NoBoard));
        }
        let Some(sheet) = &self.sheet else {
            return Err(Fault::from(Reason::NoSheet));
        };
        if state >= self.system.states() {
            return Err(Fault::from(Reason::NoSuchState));
        }
        if !entry_at(sheet.entries.as_slice(), state).granted {
            return Err(Fault::from(Reason::Denied));
        }
        if self.out >= 8 {
            return Err(Fault::from(Reason::TooManyPlays));
        }
        self.out += 1;
        Ok(AwaitingMove { state, steps: 0 })
    }

    // The rank of the play's state and the group's move there; the play then awaits a reply.
    pub fn announce(&self, play: AwaitingMove) -> Result<Announced, HandedBack<AwaitingMove>>
        ensures { Announces (S.System.means self.now.system) (model B.Board.shows self.now) play result }
    {
        if self.is_unfit() {
            return Err(HandedBack {
                fault: Fault::from(Reason::NoBoard),
                play,
            });
        }
        let Some(sheet) = &self.sheet else {
            return Err(HandedBack {
                fault: Fault::from(Reason::NoSheet),
                play,
            });
        };
        if play.state >= self.system.states() {
            return Err(HandedBack {
                fault: Fault::from(Reason::NoSuchState),
                play,
            });
        }
        if is_met(
            &self.board,
            goal_at(&self.goals, sheet.goal),
            play.state,
            play.steps,
        ) {
            return Err(HandedBack {
                fault: Fault::from(Reason::AlreadyMet),
                play,
            });
        }
        let entry = entry_at(sheet.entries.as_slice(), play.state);
        if !entry.granted {
            return Err(HandedBack {
                fault: Fault::from(Reason::Denied),
                play,
            });
        }
        if play.steps >= 65535 {
            return Err(HandedBack {
                fault: Fault::from(Reason::TooManySteps),
                play,
            });
        }
        let AwaitingMove { state, steps } = play;
        let choice = entry.choice as usize;
        Ok(Announced {
            rank: entry.rank as usize,
            choice,
            play: AwaitingReply {
                state,
                steps,
                choice,
            },
        })
    }

    // The group of the sheet's goal, or the empty one.
    fn group(&self) -> u8
        ensures { result ≡ group_of (aim (model B.Board.shows self.now)) }
    {
        match &self.sheet {
            Some(sheet) => group_of(goal_at(&self.goals, sheet.goal)),
            None => 0,
        }
    }

    // Takes a reply to the announced move; the play then awaits a move at the next state.
    pub fn tell(
        &self,
        play: AwaitingReply,
        reply: usize,
    ) -> Result<AwaitingMove, HandedBack<AwaitingReply>>
        ensures { Tells (S.System.means self.now.system) (model B.Board.shows self.now) play reply result }
    {
        if self.is_unfit() {
            return Err(HandedBack {
                fault: Fault::from(Reason::NoBoard),
                play,
            });
        }
        if self.sheet.is_none() {
            return Err(HandedBack {
                fault: Fault::from(Reason::NoSheet),
                play,
            });
        }
        if play.state >= self.system.states() {
            return Err(HandedBack {
                fault: Fault::from(Reason::NoSuchState),
                play,
            });
        }
        if !is_reply(&self.system, self.group(), play.state, reply) {
            return Err(HandedBack {
                fault: Fault::from(Reason::NotAllowed),
                play,
            });
        }
        let AwaitingReply {
            state,
            steps,
            choice,
        } = play;
        Ok(AwaitingMove {
            state: land(&self.system, state, choice, reply),
            steps: steps + 1,
        })
    }

    // Takes a play back, and gives the accepted tells and whether the goal is met.
    pub fn end(&mut self, play: Play) -> Result<Outcome, HandedBack<Play>>
        ensures steps { Ends (S.System.means self.old.system) self.old.out (model B.Board.shows self.old) play result self.new.out }
        ensures shows { model B.Board.shows self.new ≡ model B.Board.shows self.old }
        ensures same { self.new.system ≡ self.old.system }
    {
        if self.is_unfit() {
            return Err(HandedBack {
                fault: Fault::from(Reason::NoBoard),
                play,
            });
        }
        if self.out == 0 {
            return Err(HandedBack {
                fault: Fault::from(Reason::NoPlay),
                play,
            });
        }
        self.out -= 1;
        Ok(self.outcome(play))
    }

    // The steps of a play, and whether it has met the goal of the sheet.
    fn outcome(&self, play: Play) -> Outcome
        ensures { Reached (model B.Board.shows self.now) play result }
    {
        let (state, steps) = match play {
            Play::Move(play) => {
                let AwaitingMove { state, steps } = play;
                (state, steps)
            }
            Play::Reply(play) => {
                let AwaitingReply {
                    state,
                    steps,
                    choice: _,
                } = play;
                (state, steps)
            }
        };
        let met = match &self.sheet {
            Some(sheet) => is_met(&self.board, goal_at(&self.goals, sheet.goal), state, steps),
            None => false,
        };
        Outcome { steps, met }
    }

    // Removes goals k and up, and a sheet of one of them; the board stays.
    pub fn strike(&mut self, k: usize) -> Result<(), Fault>
        ensures steps { Calls (S.System.means self.old.system) self.old.out (model B.Board.shows self.old) (Strike k) (finished result) (model B.Board.shows self.new) }
        ensures same { self.new.system ≡ self.old.system }
        ensures out { self.new.out ≡ self.old.out }
    {
        if self.is_unfit() {
            return Err(Fault::from(Reason::NoBoard));
        }
        if k > self.goals.len() {
            return Err(Fault::from(Reason::NoSuchGoal));
        }
        if self.out != 0 {
            return Err(Fault::from(Reason::PlaysUnderWay));
        }
        self.goals.truncate(k);
        self.settled = self.settled.min(k);
        self.drop_sheet(k);
        Ok(())
    }

    // Lets the sheet go if it is of goal k or a later one.
    fn drop_sheet(&mut self, k: usize)
        ensures shows { model B.Board.shows self.new ≡ record { goals = (model B.Board.shows self.old).goals; settled = self.old.settled; plan = below k (model B.Board.shows self.old).plan; rows = (model B.Board.shows self.old).rows } }
        ensures same { self.new.system ≡ self.old.system }
        ensures out { self.new.out ≡ self.old.out }
    {
        let Some(sheet) = &self.sheet else {
            return;
        };
        if sheet.goal >= k {
            self.sheet = None;
        }
    }
}
