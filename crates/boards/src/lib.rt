// Sets of states, one to a row, in memory handed in.
#![tactic(auto)]

mod bits;
mod board;
mod changes;
mod edits;
mod line;

ghost use Rattle.boards.specs.Stored.{PointsAreChanges};

pub use bits::BitBoard;
pub use board::{Board, InMemory, fresh};
pub use changes::ChangeBoard;
pub use edits::{Change, apply, both_after, same_after};

// What a board of change points stores of a row is exactly the states where membership changes.
pub fn points_are_changes() -> u8
    ensures { PointsAreChanges }
{
    0
}
