// Which lists make a listed game.
ghost use Rattle.std.specs.Prelude.{◌≡◌, ◌<◌, true};
ghost use Rattle.std.specs.List.{position};
ghost use Rattle.std.specs.Option.{option_or};
ghost use Rattle.systems.specs.Lists.{shaped as well_shaped, bad_mask, bad_mark, bad_move, begins, Checked};

use crate::line::MoveLine;
use crate::lists::Lists;
use game::fault::{Fault, Reason};

// The first rule that the lists break: their shape, an entry of masks, marks or move lines, no start.
pub fn check(lists: &Lists<'_>) -> Result<(), Fault>
    ensures { Checked lists.now result }
{
    if !shaped(lists) {
        return Err(Fault::from(Reason::Shape));
    }
    if let Some(place) = first_bad(lists) {
        return Err(Fault {
            reason: Reason::Entry,
            place,
        });
    }
    if !lists.starts.iter().any(|&start| start != 0) {
        return Err(Fault::from(Reason::NoStart));
    }
    Ok(())
}

// The place of the first entry out of range, of the masks, else of the marks, else of the move lines: the later lists are read only where
// the earlier ones are right.
fn first_bad(lists: &Lists<'_>) -> Option<usize>
    requires { lists.now.atoms < 32 }
    ensures { result ≡ option_or (option_or (position bad_mask lists.now.masks.now) (position (bad_mark lists.now.atoms) lists.now.marks.now))
        (position (bad_move lists.now.states) lists.now.moves.now) }
{
    if let Some(place) = first_bad_mask(lists.masks) {
        return Some(place);
    }
    if let Some(place) = first_bad_mark(lists.marks, lists.atoms) {
        return Some(place);
    }
    first_bad_move(lists.moves, lists.states)
}

// The first mask that is 0 or above 15.
fn first_bad_mask(masks: &[u8]) -> Option<usize>
    ensures { result ≡ position bad_mask masks.now }
{
    masks.iter().position(|&mask| mask == 0 || mask > 15)
}

// The first mark of an atom that there is not.
fn first_bad_mark(marks: &[u32], atoms: usize) -> Option<usize>
    requires { atoms < 32 }
    ensures { result ≡ position (bad_mark atoms) marks.now }
{
    marks.iter().position(|&mark| mark >> atoms != 0)
}

// The first move line with an unknown state or a cover above 15.
fn first_bad_move(moves: &[MoveLine], states: usize) -> Option<usize>
    ensures { result ≡ position (bad_move states) moves.now }
{
    moves.iter().position(|line| breaks(line, states))
}

// Whether the numbers are in range, and the lists as long as these ask.
fn shaped(lists: &Lists<'_>) -> bool
    ensures { result ≡ well_shaped lists.now }
{
    (1..=6).contains(&lists.agents)
        && (1..=1024).contains(&lists.states)
        && lists.atoms <= 28
        && lists.masks.len() == lists.states * lists.agents
        && lists.looks.len() == lists.states * lists.agents
        && lists.marks.len() == lists.states
        && lists.starts.len() == lists.states
        && lists.moves.len() <= 4096
}

// Whether a move line has an unknown state or a cover above 15.
fn breaks(line: &MoveLine, states: usize) -> bool
    ensures { result ≡ bad_move states line.now }
{
    usize::from(line.state) >= states
        || usize::from(line.next) >= states
        || line.covers.iter().any(|&cover| cover > 15)
}
