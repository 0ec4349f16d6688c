// A case: goals of a system, each with a row of a board.
ghost use Rattle.std.specs.Prelude.{◌≤◌, vec_capacity};

use crate::sheet::Sheet;
use boards::Board;
use game::goal::Goal;
use game::system::System;

// Goal f uses row f. The first `settled` goals are settled, and `out` plays are under way.
#[derive(Drop)]
pub struct Case<S: System, B: Board> {
    pub(crate) system: S,
    pub(crate) board: B,
    pub(crate) goals: Vec<Goal>,
    pub(crate) settled: usize,
    pub(crate) sheet: Option<Sheet>,
    pub(crate) out: usize,
    // no board has more rows, so that a goal is entered without asking for memory
    ghost room: { 64 ≤ vec_capacity goals },
}
