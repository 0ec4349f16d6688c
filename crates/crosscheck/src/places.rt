// Boards in memory that held something else before.
use crate::random::Random;
use boards::{BitBoard, ChangeBoard, InMemory};
use std::alloc::AllocError;

pub trait Used: InMemory {
    const NAME: &'static str;

    // What was left in a place.
    fn left(random: &mut Random) -> Self::Place;
}

impl Used for BitBoard {
    const NAME: &'static str = "bits";

    fn left(random: &mut Random) -> u64 {
        random.word()
    }
}

impl Used for ChangeBoard {
    const NAME: &'static str = "change points";

    fn left(random: &mut Random) -> u16 {
        u16::try_from(random.below(65536)).unwrap_or(0)
    }
}

// A board of so many rows, and some memory that makes no row. No board has more than 1,024 states.
pub(crate) fn used_board<B: Used>(
    random: &mut Random,
    states: usize,
    rows: usize,
) -> Result<B, AllocError> {
    let width = B::width(states.min(1024));
    let count = rows
        .saturating_mul(width)
        .saturating_add(random.below(width));
    let memory = random.list(count, |random| B::left(random))?;
    Ok(B::new(states, memory))
}
