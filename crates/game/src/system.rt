// A system of agents, by what it means.
ghost use Rattle.std.specs.Prelude.{◌≡◌};
ghost use Rattle.game.specs.Meaning.{Meaning, Lawful};

// Agents, states, atoms and actions go by number; numbers that are not known are answered too, as the law says.
pub trait System {
    ghost means: { Self → Meaning };

    // What every system keeps.
    ghost lawful: { (y : Self) → Lawful (means y) };

    fn agents(&self) -> usize
        ensures { result ≡ (means self.now).agents };

    fn states(&self) -> usize
        ensures { result ≡ (means self.now).states };

    fn atoms(&self) -> usize
        ensures { result ≡ (means self.now).atoms };

    fn allowed(&self, agent: usize, state: usize, action: usize) -> bool
        ensures { result ≡ (means self.now).allowed agent state action };

    fn next(&self, state: usize, choice: usize) -> usize
        ensures { result ≡ (means self.now).next state choice };

    fn look(&self, agent: usize, state: usize) -> u16
        ensures { result ≡ (means self.now).look agent state };

    fn holds(&self, atom: usize, state: usize) -> bool
        ensures { result ≡ (means self.now).holds atom state };

    fn start(&self, state: usize) -> bool
        ensures { result ≡ (means self.now).start state };
}
