// What a goal asks of its operands and of the system.
ghost use Rattle.std.specs.Prelude.{◌≡◌, ◌^◌, nat_lt};
ghost use Rattle.game.specs.Goals.{earlier, group as group_known, some_group, known as goal_known, strategic as is_strategic, group_of};

use game::goal::Goal;
use game::system::System;

// Whether the operands are among the first n goals.
pub fn is_earlier(n: usize, goal: Goal) -> bool
    ensures { result ≡ earlier n goal }
{
    match goal {
        Goal::True | Goal::Atom(_) => true,
        Goal::Or(c, d) | Goal::And(c, d) | Goal::Until(_, c, d) => {
            (c as usize) < n && (d as usize) < n
        }
        Goal::Not(c)
        | Goal::Each(_, c)
        | Goal::Common(_, c)
        | Goal::Joint(_, c)
        | Goal::Next(_, c)
        | Goal::Always(_, c) => (c as usize) < n,
    }
}

// Whether a group has only known agents.
fn is_group<S: System>(system: &S, group: u8) -> bool
    ensures { result ≡ group_known (S.System.means system.now) group }
{
    (group as usize) < 1 << system.agents()
}

// Whether the system has the atom or the agents of a goal.
pub fn is_known<S: System>(system: &S, goal: Goal) -> bool
    ensures { result ≡ goal_known (S.System.means system.now) goal }
{
    match goal {
        Goal::True | Goal::Not(_) | Goal::Or(_, _) | Goal::And(_, _) => true,
        Goal::Atom(p) => (p as usize) < system.atoms(),
        Goal::Each(g, _) | Goal::Common(g, _) | Goal::Joint(g, _) => {
            is_group(system, g) && g != 0
        }
        Goal::Next(g, _) | Goal::Always(g, _) | Goal::Until(g, _, _) => is_group(system, g),
    }
}

// Whether the goal is X, G or U.
pub fn is_strategic(goal: Goal) -> bool
    ensures { result ≡ is_strategic goal }
{
    matches!(
        goal,
        Goal::Next(_, _) | Goal::Always(_, _) | Goal::Until(_, _, _)
    )
}

// The group of a goal, or the empty one.
pub fn group_of(goal: Goal) -> u8
    ensures { result ≡ group_of goal }
{
    match goal {
        Goal::True | Goal::Atom(_) | Goal::Not(_) | Goal::Or(_, _) | Goal::And(_, _) => 0,
        Goal::Each(g, _)
        | Goal::Common(g, _)
        | Goal::Joint(g, _)
        | Goal::Next(g, _)
        | Goal::Always(g, _)
        | Goal::Until(g, _, _) => g,
    }
}
