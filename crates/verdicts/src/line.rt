// The line of a goal.
ghost use Rattle.std.specs.Prelude.{◌≡◌, Some};
ghost use Rattle.verdicts.specs.Texts.{line_text, answer as answer_of};

use std::fmt;

// Its number, how many states it is granted at and of how many, and whether it is granted at all starts.
#[derive(Clone, Copy, PartialEq, Eq, Debug)]
pub struct Line {
    pub goal: usize,
    pub granted: usize,
    pub states: usize,
    pub all: bool,
}

impl fmt::Display for Line {
    ghost output = { λ x. Some (line_text x) };

    fn fmt<W: fmt::Write>(&self, f: &mut fmt::Formatter<W>) -> fmt::Result {
        let goal = self.goal;
        let granted = self.granted;
        let states = self.states;
        let answer = answer(self.all);
        write!(f, "{goal} {granted}/{states} {answer}")
    }
}

fn answer(all: bool) -> &'static str
    ensures { result.now ≡ answer_of all }
{
    if all { "yes" } else { "no" }
}
