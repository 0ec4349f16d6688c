// Goals and goal words at random.
use crate::goal_word::word_of;
use crate::kind::Kind;
use crate::plain::{Plain, groups_of};
use crate::random::Random;
use game::goal::{Goal, Word};

impl Random {
    fn group(&mut self, agents: usize) -> u8 {
        self.byte(groups_of(agents))
    }

    // A group with a member.
    fn some_group(&mut self, agents: usize) -> u8 {
        self.byte(groups_of(agents).saturating_sub(1))
            .saturating_add(1)
    }

    // An earlier goal, every second time this one.
    fn operand(&mut self, count: usize, often: u8) -> u8 {
        let any = self.byte(count);
        if usize::from(often) < count && self.once_in(2) {
            often
        } else {
            any
        }
    }

    // A goal over so many earlier goals that can be entered: at first TRUE, atoms and NOT.
    pub(crate) fn goal(&mut self, plain: &Plain, count: usize) -> Goal {
        let operator = match count {
            0 => self.byte(2),
            1 | 2 => 1,
            3 => 2,
            _ => self.byte(16),
        };
        let c = self.operand(count, 3);
        let d = self.operand(count, 1);
        match operator {
            1 if plain.atoms == 0 && count == 0 => Goal::True,
            1 if plain.atoms == 0 => Goal::Not(c),
            1 => Goal::Atom(self.byte(plain.atoms)),
            2 => Goal::Not(c),
            3 => Goal::Or(c, d),
            4 => Goal::And(c, d),
            5 => Goal::Each(self.some_group(plain.agents), c),
            6 | 14 => Goal::Common(self.some_group(plain.agents), c),
            7 => Goal::Joint(self.some_group(plain.agents), c),
            8 => Goal::Next(self.group(plain.agents), c),
            9 | 11 | 15 => Goal::Always(self.group(plain.agents), c),
            10 | 12 | 13 => Goal::Until(self.group(plain.agents), c, d),
            _ => Goal::True,
        }
    }

    pub(crate) fn goal_word(&mut self, plain: &Plain, count: usize) -> Word {
        word_of(self.goal(plain, count))
    }

    // A small number, now and then any byte.
    fn field(&mut self, n: usize) -> u8 {
        match self.below(8) {
            0 => self.byte(256),
            1..=3 => 0,
            _ => self.byte(n.saturating_add(2)),
        }
    }

    // Any word, near to a goal word.
    pub(crate) fn any_word(&mut self, plain: &Plain, count: usize) -> Word {
        let kind = if self.once_in(8) {
            self.byte(16)
        } else {
            Kind::Goal as u8
        };
        Word {
            kind,
            a: self.byte(13),
            b: self.field(groups_of(plain.agents)),
            c: self.field(count),
            d: self.field(count),
        }
    }
}
