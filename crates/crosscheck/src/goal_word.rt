// Goals and their words, read and written a second time: both types are of another crate, which has their `From`, so these are functions.
use crate::kind::Kind;
use crate::plain::groups_of;
use game::goal::{Goal, Word};

// An operator leaves the fields at 0 that it has no use for.
pub(crate) fn word_of(goal: Goal) -> Word {
    let (a, b, c, d) = match goal {
        Goal::True => (0, 0, 0, 0),
        Goal::Atom(atom) => (1, atom, 0, 0),
        Goal::Not(c) => (2, 0, c, 0),
        Goal::Or(c, d) => (3, 0, c, d),
        Goal::And(c, d) => (4, 0, c, d),
        Goal::Each(group, c) => (5, group, c, 0),
        Goal::Common(group, c) => (6, group, c, 0),
        Goal::Joint(group, c) => (7, group, c, 0),
        Goal::Next(group, c) => (8, group, c, 0),
        Goal::Always(group, c) => (9, group, c, 0),
        Goal::Until(group, c, d) => (10, group, c, d),
    };
    Word {
        kind: Kind::Goal as u8,
        a,
        b,
        c,
        d,
    }
}

// The goal that has this word.
pub(crate) fn goal_of(word: Word) -> Option<Goal> {
    let Word { b, c, d, .. } = word;
    let goal = match word.a {
        0 => Goal::True,
        1 => Goal::Atom(b),
        2 => Goal::Not(c),
        3 => Goal::Or(c, d),
        4 => Goal::And(c, d),
        5 => Goal::Each(b, c),
        6 => Goal::Common(b, c),
        7 => Goal::Joint(b, c),
        8 => Goal::Next(b, c),
        9 => Goal::Always(b, c),
        10 => Goal::Until(b, c, d),
        _ => return None,
    };
    (word_of(goal) == word).then_some(goal)
}

// The earlier goals that a goal is made of.
pub(crate) fn operands(goal: Goal) -> [Option<u8>; 2] {
    match goal {
        Goal::True | Goal::Atom(_) => [None, None],
        Goal::Not(c)
        | Goal::Each(_, c)
        | Goal::Common(_, c)
        | Goal::Joint(_, c)
        | Goal::Next(_, c)
        | Goal::Always(_, c) => [Some(c), None],
        Goal::Or(c, d) | Goal::And(c, d) | Goal::Until(_, c, d) => [Some(c), Some(d)],
    }
}

// Whether a goal says what a group can bring about, so that there is a sheet for it.
pub(crate) fn is_strategic(goal: Goal) -> bool {
    matches!(&goal, Goal::Next(..) | Goal::Always(..) | Goal::Until(..))
}

// Whether the atom is there, and the agents are; knowledge is that of somebody.
pub(crate) fn is_known(goal: Goal, agents: usize, atoms: usize) -> bool {
    let groups = groups_of(agents);
    match goal {
        Goal::True | Goal::Not(_) | Goal::Or(..) | Goal::And(..) => true,
        Goal::Atom(atom) => usize::from(atom) < atoms,
        Goal::Each(group, _) | Goal::Common(group, _) | Goal::Joint(group, _) => {
            group != 0 && usize::from(group) < groups
        }
        Goal::Next(group, _) | Goal::Always(group, _) | Goal::Until(group, _, _) => {
            usize::from(group) < groups
        }
    }
}
