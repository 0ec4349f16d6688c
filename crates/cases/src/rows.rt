// A row written as a whole.
ghost use Rattle.std.specs.Prelude.{◌≡◌, Bool};
ghost use Rattle.boards.specs.Meaning.{with_mark};
ghost use Rattle.game.specs.Objectives.{set_in};
ghost use Rattle.law.specs.Steps.{with_row};

use boards::Board;

fn mark<B: Board>(board: &mut B, row: usize, state: usize, on: bool)
    ensures { B.Board.shows board.new ≡ with_mark (B.Board.shows board.old) row state on }
{
    if on {
        board.put(row, state);
    } else {
        board.remove(row, state);
    }
}

// The states are gone through by number, as there may be fewer flags than states.
// Makes a row the set of the flags, as far as the board has the row and the states.
pub(crate) fn write_row<B: Board>(board: &mut B, row: usize, flags: &[bool])
    ensures { B.Board.shows board.new ≡ with_row (B.Board.shows board.old) row (set_in flags.now) }
{
    for s in 0..board.states() {
        let on = flags.get(s).copied().unwrap_or(false);
        mark(board, row, s, on);
    }
}
