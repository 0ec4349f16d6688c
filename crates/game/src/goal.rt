// Goals, and the words of a procedure file that stand for them.
ghost use Rattle.std.specs.Prelude.{◌≡◌};
ghost use Rattle.game.specs.Goals.{word_of, goal_of, ReadsAsGoal};

use crate::fault::{Fault, Reason};

// A word by its fields: the kind of word, and four numbers. In a goal word the first of them is the operator.
#[derive(Clone, Copy, PartialEq, Eq, Debug)]
pub struct Word {
    pub kind: u8,
    pub a: u8,
    pub b: u8,
    pub c: u8,
    pub d: u8,
}

// A goal over earlier goals, which go by their numbers. A group is a mask, bit i for agent i.
// Each, Common and Joint are what every member knows, what is common knowledge, and what the members know together.
#[derive(Clone, Copy, PartialEq, Eq, Debug)]
pub enum Goal {
    True,
    Atom(u8),
    Not(u8),
    Or(u8, u8),
    And(u8, u8),
    Each(u8, u8),
    Common(u8, u8),
    Joint(u8, u8),
    Next(u8, u8),
    Always(u8, u8),
    Until(u8, u8, u8),
}

impl Word {
    // The only goal whose word this can be.
    pub fn goal(self) -> Goal
        ensures { result ≡ goal_of self }
    {
        match self.a {
            0 => Goal::True,
            1 => Goal::Atom(self.b),
            2 => Goal::Not(self.c),
            3 => Goal::Or(self.c, self.d),
            4 => Goal::And(self.c, self.d),
            5 => Goal::Each(self.b, self.c),
            6 => Goal::Common(self.b, self.c),
            7 => Goal::Joint(self.b, self.c),
            8 => Goal::Next(self.b, self.c),
            9 => Goal::Always(self.b, self.c),
            _ => Goal::Until(self.b, self.c, self.d),
        }
    }
}

// The word of a goal: 0 in each field that the operator does not use.
impl From<Goal> for Word {
    ghost from_gives = { λ goal word. word ≡ word_of goal };

    fn from(goal: Goal) -> Word {
        let (a, b, c, d) = match goal {
            Goal::True => (0, 0, 0, 0),
            Goal::Atom(p) => (1, p, 0, 0),
            Goal::Not(c) => (2, 0, c, 0),
            Goal::Or(c, d) => (3, 0, c, d),
            Goal::And(c, d) => (4, 0, c, d),
            Goal::Each(g, c) => (5, g, c, 0),
            Goal::Common(g, c) => (6, g, c, 0),
            Goal::Joint(g, c) => (7, g, c, 0),
            Goal::Next(g, c) => (8, g, c, 0),
            Goal::Always(g, c) => (9, g, c, 0),
            Goal::Until(g, c, d) => (10, g, c, d),
        };
        Word {
            kind: 8,
            a,
            b,
            c,
            d,
        }
    }
}

// The goal of a word, where the word is one of a goal.
impl TryFrom<Word> for Goal {
    type Error = Fault;

    ghost try_from_gives = { ReadsAsGoal };

    fn try_from(word: Word) -> Result<Goal, Fault> {
        let goal = word.goal();
        if Word::from(goal) != word {
            return Err(Fault::from(Reason::NotAGoal));
        }
        Ok(goal)
    }
}
