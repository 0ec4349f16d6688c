// A rehearsal: a case is opened, a list of calls is run on it, and what is left under way is ended.
ghost use Rattle.std.specs.Prelude.{IfOk};
ghost use Rattle.law.specs.Worlds.{World, opened};
ghost use Rattle.law.specs.Steps.{Run};
ghost use Rattle.law.specs.Laws.{Stands};

use crate::desk::Desk;
use boards::Board;
use game::system::System;
use law::call::{Answer, Call};
use std::alloc::{AllocError, Global};

// The answers to a list of calls on a case that is opened on the system and the board.
pub fn rehearse<S: System + Drop, B: Board + Drop>(
    heap: Global,
    system: S,
    board: B,
    calls: &[Call],
) -> Result<Vec<Answer>, AllocError>
    ensures { IfOk result (λ v. (w : World) × Run (S.System.means system) (opened (B.Board.shows board)) calls.now v.items w × Stands (S.System.means system) calls.now v.items w) }
{
    let mut desk = Desk::open(heap, system, board)?;
    let answers = desk.run(heap, calls);
    desk.close();
    answers
}
