// Numbers that look random and are the same in every run.
ghost use Rattle.std.specs.Prelude.{◌<◌, ◌≤◌};

use std::alloc::{AllocError, Global};

// Made where it is asked for a list, in the memory that is handed in.
#[derive(Drop)]
pub struct Random {
    pub heap: Global,
    state: u64,
}

impl Random {
    pub(crate) fn new(heap: Global, state: u64) -> Random {
        Random { heap, state }
    }

    // Any 64 bits but 0.
    pub(crate) fn word(&mut self) -> u64 {
        let mut x = self.state;
        x ^= x << 13;
        x ^= x >> 7;
        x ^= x << 17;
        self.state = x;
        x
    }

    // A number below n, or 0 where n is 0.
    pub(crate) fn below(&mut self, n: usize) -> usize
        ensures at_most { result ≤ n }
        ensures below { 0 < n → result < n }
    {
        let x = (self.word() >> 16) as usize;
        x.checked_rem(n).unwrap_or(0)
    }

    // Yes once in n times.
    pub(crate) fn once_in(&mut self, n: usize) -> bool {
        self.below(n) == 0
    }

    // A number below n as a byte; n is at most 256.
    pub(crate) fn byte(&mut self, n: usize) -> u8
        ensures below { 0 < n → result < n }
    {
        u8::try_from(self.below(n)).unwrap_or(0)
    }

    // So many, each drawn in the same way.
    pub(crate) fn list<T: Drop, F: FnMut(&mut Random) -> T>(
        &mut self,
        count: usize,
        mut draw: F,
    ) -> Result<Vec<T>, AllocError>
        requires { F.IsAlwaysCallable draw }
    {
        // Draws one after another change what is drawn from, here and wherever something random is drawn, so these are loops.
        let mut list = Vec::new(self.heap);
        for _ in 0..count {
            list.push(draw(self))?;
        }
        Ok(list)
    }
}
