// The verdict on all goals of a list of words, in three steps, each of which asks for what the one before leaves.
ghost use Rattle.std.specs.Prelude.{◌≡◌, ℕ, ◌<◌, ◌≤◌, false, [], length, MatchResult};
ghost use Rattle.law.specs.Refusals.{no_board};
ghost use Rattle.cases.specs.Shows.{model};
ghost use Rattle.game.specs.declared.fault.Stop.TheVariants.{Memory};
ghost use Rattle.verdicts.specs.Reports.{IsLine};
ghost use Rattle.verdicts.specs.Judging.{word_at, line_at, holding, Entered, RefusedWord, Leads, Judges};

use crate::line::Line;
use crate::report::report;
use boards::Board;
use cases::case::Case;
use game::fault::{Fault, Stop};
use game::goal::Word;
use game::system::System;
use std::alloc::Global;

// Enters the goals of the words, in their order. A refusal has the place of its word among them.
fn enter_all<S: System, B: Board>(case: &mut Case<S, B>, words: &[Word]) -> Result<(), Fault>
    requires idle { case.old.out ≡ 0 }
    requires opened { model B.Board.shows case.old ≡ holding (B.Board.shows case.old.board) [] }
    ensures steps { MatchResult result
        (λ _. Entered (S.System.means case.old.system) (B.Board.shows case.old.board) words.now (length words.now) × (model B.Board.shows case.new ≡ holding (B.Board.shows case.old.board) words.now))
        (RefusedWord (S.System.means case.old.system) (B.Board.shows case.old.board) words.now) }
    ensures same { case.new.system ≡ case.old.system }
    ensures out { case.new.out ≡ 0 }
{
    for (place, word) in words.iter().enumerate() {
        match case.enter(*word) {
            Ok(_) => (),
            Err(fault) => return Err(Fault { place, ..fault }),
        }
    }
    Ok(())
}

// Settles so many goals.
fn settle_all<S: System, B: Board>(
    heap: Global,
    case: &mut Case<S, B>,
    count: usize,
) -> Result<(), Stop>
    requires idle { case.old.out ≡ 0 }
    requires fit { 0 < count → no_board (S.System.means case.old.system) (model B.Board.shows case.old) ≡ false }
    requires none { (model B.Board.shows case.old).settled ≡ 0 }
    requires many { count ≤ length (model B.Board.shows case.old).goals }
    ensures steps { MatchResult result
        (λ _. Leads (S.System.means case.old.system) (model B.Board.shows case.old) (model B.Board.shows case.new) × ((model B.Board.shows case.new).settled ≡ count))
        (λ e. e ≡ Memory) }
    ensures same { case.new.system ≡ case.old.system }
{
    for k in 0..count {
        case.settle(heap)?;
    }
    Ok(())
}

// The lines of so many goals, one after another, as each may be refused.
fn report_all<S: System, B: Board>(
    heap: Global,
    case: &Case<S, B>,
    count: usize,
) -> Result<Vec<Line>, Stop>
    requires fit { 0 < count → no_board (S.System.means case.now.system) (model B.Board.shows case.now) ≡ false }
    requires settled { count ≤ (model B.Board.shows case.now).settled }
    requires many { count ≤ length (model B.Board.shows case.now).goals }
    ensures { MatchResult result
        (λ v. (length v.items ≡ count) × ((f : ℕ) → f < count → IsLine (S.System.means case.now.system) f ((B.Board.shows case.now.board).marked f) (line_at v.items f)))
        (λ e. e ≡ Memory) }
{
    let mut lines = Vec::with_capacity(heap, count)?;
    for goal in 0..count {
        let line = report(case, goal)?;
        lines.push_reserved(line);
    }
    Ok(lines)
}

// The verdict on a case that was just opened.
fn judge_on<S: System, B: Board>(
    heap: Global,
    case: &mut Case<S, B>,
    words: &[Word],
) -> Result<Vec<Line>, Stop>
    requires idle { case.old.out ≡ 0 }
    requires opened { model B.Board.shows case.old ≡ holding (B.Board.shows case.old.board) [] }
    ensures { Judges (S.System.means case.old.system) (B.Board.shows case.old.board) words.now result }
{
    enter_all(case, words)?;
    settle_all(heap, case, words.len())?;
    report_all(heap, case, words.len())
}

// Enters and settles the goals of the words on a system and a board, and gives the line of each. A refusal has the place of its
// word among them.
pub fn judge<S: System + Drop, B: Board + Drop>(
    heap: Global,
    system: S,
    board: B,
    words: &[Word],
) -> Result<Vec<Line>, Stop>
    ensures { Judges (S.System.means system) (B.Board.shows board) words.now result }
{
    let mut case = Case::open(heap, system, board)?;
    judge_on(heap, &mut case, words)
}
