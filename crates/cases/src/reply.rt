// Reply, and which numbers are choices of a side.
ghost use Rattle.std.specs.Prelude.{◌≡◌, ℕ, Bool, not};
ghost use Rattle.game.specs.Meaning.{member};
ghost use Rattle.law.specs.Refusals.{fits_side};
ghost use Rattle.law.specs.declared.call.Call.TheVariants.{Reply};
ghost use Rattle.cases.specs.Shows.{model, Calls, advised};
ghost use Rattle.cases.specs.Planning.{RepliesAs};

use crate::advice::Advice;
use crate::calls::goal_at;
use crate::case::Case;
use crate::plan::entry_at;
use arenas::entry::Entry;
use boards::Board;
use game::fault::{Fault, Reason};
use game::goal::Goal;
use game::system::System;
use goals::word::group_of;
use plans::reply::lowest_reply;
use plans::sets::{Losing, States};
use plans::side::side;

// The states outside a row.
#[derive(Drop)]
struct Outside<'a, B: Board> {
    board: &'a B,
    row: usize,
}

impl<'a, B: Board> States for Outside<'a, B> {
    ghost within = { λ x s. not ((B.Board.shows x.board.now).marked x.row s) };

    fn has(&self, state: usize) -> bool {
        !self.board.has(self.row, state)
    }
}

// Whether a number is a choice of the group.
fn is_choice<S: System>(system: &S, group: u8, state: usize, choice: usize) -> bool
    ensures { result ≡ fits_side (S.System.means system.now) (member group) state choice }
{
    side(system, group, true, state, choice)
}

// Whether a number is a reply of the others.
pub(crate) fn is_reply<S: System>(system: &S, group: u8, state: usize, reply: usize) -> bool
    ensures { result ≡ fits_side (S.System.means system.now) (λ i. not (member group i)) state reply }
{
    side(system, group, false, state, reply)
}

// The lowest reply of the table to a group's choice at a denied state.
fn lowest<S: System, B: Board>(
    system: &S,
    board: &B,
    entries: &[Entry],
    goal: Goal,
    state: usize,
    choice: usize,
) -> usize
    ensures { RepliesAs (S.System.means system.now) (B.Board.shows board.now).marked goal entries.now state choice result }
{
    let rank = entry_at(entries, state).rank;
    match goal {
        Goal::Next(group, c) => {
            let into = Outside {
                board,
                row: c as usize,
            };
            lowest_reply(system, group, state, choice, &into).unwrap_or(0)
        }
        Goal::Always(group, _) => {
            if rank == 0 {
                return 0;
            }
            let into = Losing {
                entries,
                bound: rank - 1,
            };
            lowest_reply(system, group, state, choice, &into).unwrap_or(0)
        }
        Goal::Until(group, _, _) => {
            if rank == 0 {
                return 0;
            }
            let into = Losing {
                entries,
                bound: 65535,
            };
            lowest_reply(system, group, state, choice, &into).unwrap_or(0)
        }
        _ => 0,
    }
}

impl<S: System, B: Board> Case<S, B> {
    // The rank of a denied state, and the others' reply there to a choice of the group.
    pub fn reply(&self, state: usize, choice: usize) -> Result<Advice, Fault>
        ensures { Calls (S.System.means self.now.system) self.now.out (model B.Board.shows self.now) (Reply state choice) (advised result) (model B.Board.shows self.now) }
    {
        if self.is_unfit() {
            return Err(Fault::from(Reason::NoBoard));
        }
        let Some(sheet) = &self.sheet else {
            return Err(Fault::from(Reason::NoSheet));
        };
        if state >= self.system.states() {
            return Err(Fault::from(Reason::NoSuchState));
        }
        let entries = sheet.entries.as_slice();
        let entry = entry_at(entries, state);
        if entry.granted {
            return Err(Fault::from(Reason::Granted));
        }
        let goal = goal_at(&self.goals, sheet.goal);
        if !is_choice(&self.system, group_of(goal), state, choice) {
            return Err(Fault::from(Reason::NotAllowed));
        }
        Ok(Advice {
            rank: entry.rank as usize,
            choice: lowest(&self.system, &self.board, entries, goal, state, choice),
        })
    }
}
