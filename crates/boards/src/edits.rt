// Lists of changes, for a board of any make.
ghost use Rattle.std.specs.Prelude.{◌≡◌, ◌+◌, vec_len};
ghost use Rattle.boards.specs.Meaning.{blank, whole_rows};
ghost use Rattle.boards.specs.Calls.{changed, after};
ghost use Rattle.boards.specs.Bits.{bit_rows};
ghost use Rattle.boards.specs.Points.{change_rows};

use crate::bits::BitBoard;
use crate::board::{Board, InMemory};
use crate::changes::ChangeBoard;

#[derive(Clone, Copy, Drop)]
pub enum Change {
    // row, state
    Put(usize, usize),
    Remove(usize, usize),
    // row
    Wipe(usize),
}

fn make<B: Board>(board: &mut B, change: Change)
    ensures { B.Board.shows board.new ≡ changed (B.Board.shows board.old) change }
{
    match change {
        Change::Put(row, state) => board.put(row, state),
        Change::Remove(row, state) => board.remove(row, state),
        Change::Wipe(row) => board.wipe(row),
    }
}

// Makes the changes in their order.
pub fn apply<B: Board>(board: &mut B, changes: &[Change])
    ensures { B.Board.shows board.new ≡ after (B.Board.shows board.old) changes.now }
{
    for change in changes {
        make(board, *change);
    }
}

// Makes the changes on two boards, of any make: boards that mean the same still do.
pub fn same_after<X: Board, Y: Board>(one: &mut X, other: &mut Y, changes: &[Change])
    ensures one { X.Board.shows one.new ≡ after (X.Board.shows one.old) changes.now }
    ensures other { Y.Board.shows other.new ≡ after (Y.Board.shows other.old) changes.now }
    ensures same { X.Board.shows one.old ≡ Y.Board.shows other.old → X.Board.shows one.new ≡ Y.Board.shows other.new }
{
    apply(one, changes);
    apply(other, changes);
}

// Opens both kinds of board for so many states and makes the changes on each: where they have as many rows, they mean the same.
pub fn both_after(
    states: usize,
    words: Vec<u64>,
    numbers: Vec<u16>,
    changes: &[Change],
) -> (BitBoard, ChangeBoard)
    ensures bits { bit_rows result.0.words.items result.0.count result.0.height ≡ after (blank states (whole_rows states 16 (vec_len words))) changes.now }
    ensures points { change_rows result.1.points.items result.1.count result.1.height ≡ after (blank states (whole_rows states (states + 1) (vec_len numbers))) changes.now }
    ensures same { whole_rows states 16 (vec_len words) ≡ whole_rows states (states + 1) (vec_len numbers) → bit_rows result.0.words.items result.0.count result.0.height ≡ change_rows result.1.points.items result.1.count result.1.height }
{
    let mut bits = BitBoard::new(states, words);
    let mut points = ChangeBoard::new(states, numbers);
    same_after(&mut bits, &mut points, changes);
    (bits, points)
}
