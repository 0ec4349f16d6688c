// The line of a goal of a case.
ghost use Rattle.std.specs.Prelude.{◌≡◌};
ghost use Rattle.cases.specs.Shows.{model};
ghost use Rattle.verdicts.specs.Reports.{Reports};

use crate::line::Line;
use boards::Board;
use cases::case::Case;
use game::fault::Fault;
use game::system::System;

// The line of a settled goal: how many states it is granted at, and whether at all starts.
pub fn report<S: System, B: Board>(case: &Case<S, B>, goal: usize) -> Result<Line, Fault>
    ensures { Reports (S.System.means case.now.system) case.now.out (model B.Board.shows case.now) goal result }
{
    let states = case.system().states();
    let mut granted = 0;
    let mut all = true;
    for state in 0..states {
        let here = case.query(goal, state)?;
        granted += usize::from(here);
        let start = case.system().start(state);
        all &= !start | here;
    }
    Ok(Line {
        goal,
        granted,
        states,
        all,
    })
}
