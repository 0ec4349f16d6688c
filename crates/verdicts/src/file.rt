// The verdict on a procedure file.
ghost use Rattle.boards.specs.Meaning.{blank};
ghost use Rattle.verdicts.specs.Judging.{Judges};
ghost use Rattle.verdicts.specs.Verdicts.{Verdict};

use crate::judge::judge;
use crate::line::Line;
// The board that verdicts are found on: `BitBoard` or `ChangeBoard`.
use boards::{BitBoard as Marks, fresh};
use game::fault::{Fault, Stop};
use game::goal::Word;
use game::system::System;
use procedure::reading::read_whole;
use std::alloc::Global;
use systems::table_system::tabulate;

// The verdict on the goals of the words, on a table of the system and a board of 64 rows.
pub fn judge_system<S: System>(heap: Global, system: &S, words: &[Word]) -> Result<Vec<Line>, Stop>
    ensures { Judges (S.System.means system.now) (blank (S.System.means system.now).states 64) words.now result }
{
    let table = tabulate(heap, system)?;
    let board: Marks = fresh(heap, table.states())?;
    judge(heap, table, board, words)
}

// The verdict on a file. The refusal of a goal has the place of its word in the file: the goal words stand right before the end word.
pub fn judge_file(heap: Global, bytes: &[u8]) -> Result<Vec<Line>, Stop>
    ensures { Verdict bytes.now result }
{
    let procedure = read_whole(heap, bytes)?;
    let first = bytes.len() / 4 - 1 - procedure.goals.len();
    match judge_system(heap, &procedure.system, &procedure.goals) {
        Ok(lines) => Ok(lines),
        Err(Stop::Refused(fault)) => Err(Stop::Refused(Fault {
            place: first + fault.place,
            ..fault
        })),
        Err(Stop::Memory) => Err(Stop::Memory),
    }
}
