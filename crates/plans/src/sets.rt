// Sets of states, however they are kept.
ghost use Rattle.std.specs.Prelude.{◌≡◌, ℕ, Bool};
ghost use Rattle.plans.specs.Drawing.{losing};

use arenas::entry::Entry;

pub trait States {
    ghost within: { Self → ℕ → Bool };

    fn has(&self, state: usize) -> bool
        ensures { result ≡ within self.now state };
}

// The states that are denied with a rank of at most `bound`. Past the last entry nothing is granted, and the rank is 0.
#[derive(Drop)]
pub struct Losing<'a> {
    pub entries: &'a [Entry],
    pub bound: u16,
}

impl<'a> States for Losing<'a> {
    ghost within = { λ x s. losing x.entries.now x.bound s };

    fn has(&self, state: usize) -> bool {
        let entry = self.entries.get(state).copied().unwrap_or_default();
        !entry.granted && entry.rank <= self.bound
    }
}
