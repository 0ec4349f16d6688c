// Settle.
ghost use Rattle.std.specs.Prelude.{◌≡◌, ◌<◌};
ghost use Rattle.law.specs.declared.call.Call.TheVariants.{Settle};
ghost use Rattle.cases.specs.Shows.{model, Awaits, Tries};

use crate::calls::goal_at;
use crate::case::Case;
use crate::rows::write_row;
use boards::Board;
use game::fault::{Fault, Reason, Stop};
use game::goal::Goal;
use game::system::System;
use goals::evaluate::evaluate;
use std::alloc::Global;

impl<S: System, B: Board> Case<S, B> {
    // The lowest unsettled goal.
    fn unsettled(&self) -> Result<Goal, Fault>
        ensures { Awaits (S.System.means self.now.system) self.now.out (model B.Board.shows self.now) result }
    {
        if self.is_unfit() {
            return Err(Fault::from(Reason::NoBoard));
        }
        if self.settled >= self.goals.len() {
            return Err(Fault::from(Reason::AllSettled));
        }
        Ok(goal_at(&self.goals, self.settled))
    }

    // Settles the lowest unsettled goal: its row becomes its set.
    pub fn settle(&mut self, heap: Global) -> Result<(), Stop>
        ensures steps { Tries (S.System.means self.old.system) self.old.out (model B.Board.shows self.old) Settle result (model B.Board.shows self.new) }
        ensures same { self.new.system ≡ self.old.system }
        ensures out { self.new.out ≡ self.old.out }
    {
        let goal = self.unsettled()?;
        let flags = evaluate(heap, &self.system, &self.board, goal)?;
        write_row(&mut self.board, self.settled, flags.as_slice());
        self.settled += 1;
        Ok(())
    }
}
