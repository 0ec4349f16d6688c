// How much of everything a system has.
ghost use Rattle.std.specs.Prelude.{◌≡◌, ◌^◌, ◌≤◌};

// Agents, states and atoms, and the number of joint choices of all actions.
#[derive(Clone, Copy)]
pub struct Sizes {
    pub agents: usize,
    pub states: usize,
    pub atoms: usize,
    pub width: usize,
    ghost some: { 1 ≤ agents },
    ghost few: { agents ≤ 6 },
    ghost small: { states ≤ 1024 },
    ghost named: { atoms ≤ 28 },
    ghost wide: { width ≡ 4 ^ agents },
    ghost broad: { 1 ≤ width },
    ghost bound: { width ≤ 4096 },
}
