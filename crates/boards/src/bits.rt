// The board of bits: 16 words of 64 bits to a row, the bit of state s in word s / 64 at place s % 64.
ghost use Rattle.std.specs.Prelude.{◌≡◌, ℕ, ◌+◌, ◌≤◌, ◌&&◌, length, if◌then◌else◌, vec_len, nat_le, nat_lt, slice_index};
ghost use Rattle.boards.specs.Meaning.{blank, whole_rows};
ghost use Rattle.boards.specs.Bits.{mark_of, bit_rows};
ghost use Rattle.boards.specs.Owed.{framed_sound};

use crate::board::{Board, InMemory, height_of};

#[derive(Drop)]
pub struct BitBoard {
    words: Vec<u64>,
    count: usize,
    height: usize,
    ghost fits: { height ≡ whole_rows count 16 (vec_len words) },
}

impl InMemory for BitBoard {
    type Place = u64;

    ghost width = { λ _. 16 };

    fn width(_: usize) -> usize {
        16
    }

    fn new(states: usize, memory: Vec<u64>) -> Self
        ensures { bit_rows result.words.items result.count result.height ≡ blank states (whole_rows states 16 (vec_len memory)) }
    {
        let mut words = memory;
        let height = height_of(states, 16, words.len());
        words.fill(0);
        BitBoard {
            words,
            count: states,
            height,
        }
    }
}

impl Board for BitBoard {
    ghost shows = { λ b. bit_rows b.words.items b.count b.height };

    ghost sound = { λ b. framed_sound b.count b.height 16 (vec_len b.words) (mark_of b.words.items) b.fits };

    fn states(&self) -> usize {
        self.count
    }

    fn rows(&self) -> usize {
        self.height
    }

    fn has(&self, row: usize, state: usize) -> bool {
        if row >= self.height || state >= self.count {
            return false;
        }
        let word = self.words[row * 16 + state / 64];
        (word >> (state % 64)) & 1 == 1
    }

    fn put(&mut self, row: usize, state: usize) {
        if row < self.height && state < self.count {
            let at = row * 16 + state / 64;
            let mask = 1u64 << (state % 64);
            let word = self.words[at];
            self.words[at] = word | mask;
        }
    }

    fn remove(&mut self, row: usize, state: usize) {
        if row < self.height && state < self.count {
            let at = row * 16 + state / 64;
            let mask = 1u64 << (state % 64);
            let word = self.words[at];
            self.words[at] = (word | mask) ^ mask;
        }
    }

    fn wipe(&mut self, row: usize) {
        if row < self.height {
            let from = row * 16;
            self.words[from..from + 16].fill(0);
        }
    }
}
