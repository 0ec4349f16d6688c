// Rows of a board as lists of flags.
ghost use Rattle.std.specs.Prelude.{◌≡◌, ℕ, ◌<◌, false, length, IfOk, slice_index_or};

use boards::Board;
use std::alloc::{AllocError, Global};

// A flag for each state below n that the row has.
pub(crate) fn marks<B: Board>(
    heap: Global,
    board: &B,
    row: usize,
    n: usize,
) -> Result<Vec<bool>, AllocError>
    ensures { IfOk result (λ v. (length v.items ≡ n) × ((s : ℕ) → s < n → slice_index_or v.items s false ≡ (B.Board.shows board.now).marked row s)) }
{
    (0..n).map(|s| board.has(row, s)).collect(heap)
}
