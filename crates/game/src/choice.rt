// Choices, one number for the actions of all agents. There are six agents at most, and their actions stand in an array, since what a
// system answers takes nothing from memory. The six terms are written out: a fold over powers of 4 would say no more, and hide the bound.
ghost use Rattle.std.specs.Prelude.{◌≡◌, slice_index};
ghost use Rattle.game.specs.Meaning.{choice as sum_of, actions as actions_of, member};

// The actions of six agents in a choice.
pub fn unpack(choice: usize) -> [u8; 6]
    ensures { result ≡ actions_of choice }
{
    [
        (choice % 4) as u8,
        (choice / 4 % 4) as u8,
        (choice / 16 % 4) as u8,
        (choice / 64 % 4) as u8,
        (choice / 256 % 4) as u8,
        (choice / 1024 % 4) as u8,
    ]
}

// The choice of six actions: the sum of action × 4 ^ agent.
pub fn pack(actions: [u8; 6]) -> usize
    ensures { result ≡ sum_of (λ i. slice_index actions i) 6 }
{
    let [a, b, c, d, e, f] = actions;
    a as usize
        + b as usize * 4
        + c as usize * 16
        + d as usize * 64
        + e as usize * 256
        + f as usize * 1024
}

// Whether an agent is a member of a group, which is a mask: bit i for agent i.
pub fn in_group(group: u8, agent: usize) -> bool
    ensures { result ≡ member group agent }
{
    agent < 8 && (group >> agent) & 1 == 1
}
