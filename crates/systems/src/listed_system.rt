// What a listed game answers, and how lists become one.
ghost use Rattle.std.specs.Prelude.{◌≡◌, ◌+◌, ◌<◌, ◌≤◌, true, length, if◌then◌else◌, nat_lt, slice_index};
ghost use Rattle.std.specs.List.{list_all};
ghost use Rattle.systems.specs.First.{given};
ghost use Rattle.systems.specs.Fits.{bit, move_fits};
ghost use Rattle.systems.specs.Joint.{all_below};
ghost use Rattle.systems.specs.Empty.{empty_game};
ghost use Rattle.systems.specs.Lists.{accepted, listed_meaning, EmptyLists};
ghost use Rattle.systems.specs.lemmas.GameLawful.{game_lawful};

use crate::check::check;
use crate::line::{MoveAt, MoveLine, first_fit, in_mask};
use crate::listed::Game;
use crate::lists::Lists;
use game::choice::unpack;
use game::system::System;

// The game of the lists, or the empty game where the check refuses them.
pub fn open<'a>(lists: &Lists<'a>) -> Game<'a>
    ensures { listed_meaning result.lists ≡ (if accepted lists.now then listed_meaning lists.now else empty_game) }
{
    if check(lists).is_err() {
        return empty_game();
    }
    narrow(lists.looks);
    Game { lists: *lists }
}

// Looks are numbers of 16 bits, as their type says. A clause knows that of a list that is a parameter, and of no field.
fn narrow(_looks: &[u16])
    ensures { list_all (λ v. nat_lt v 65536) _looks.now ≡ true }
{}

// One agent, one state, no atoms, action 0 only, look 0, and state 0 is a start.
pub fn empty_game() -> Game<'static>
    ensures { listed_meaning result.lists ≡ empty_game }
{
    Game {
        lists: empty_lists(),
    }
}

fn empty_lists() -> Lists<'static>
    ensures { EmptyLists result }
{
    Lists {
        agents: 1,
        states: 1,
        atoms: 0,
        masks: &[1],
        looks: &[0],
        marks: &[0],
        starts: &[1],
        moves: &[],
    }
}

impl<'a> System for Game<'a> {
    ghost means = { λ g. listed_meaning g.lists };

    ghost lawful = { game_lawful };

    fn agents(&self) -> usize {
        self.lists.agents
    }

    fn states(&self) -> usize {
        self.lists.states
    }

    fn atoms(&self) -> usize {
        self.lists.atoms
    }

    fn allowed(&self, agent: usize, state: usize, action: usize) -> bool {
        let lists = self.lists;
        if agent >= lists.agents || state >= lists.states || action >= 4 {
            return false;
        }
        in_mask(lists.masks[state * lists.agents + agent], action as u8)
    }

    fn next(&self, state: usize, choice: usize) -> usize {
        let lists = self.lists;
        if state >= lists.states {
            return 0;
        }
        if choice >> (2 * lists.agents) != 0 {
            return 0;
        }
        let actions = unpack(choice);
        let first = state * lists.agents;
        if !masks_allow(&lists.masks[first..first + lists.agents], actions) {
            return 0;
        }
        let state = state as u16;
        let at = MoveAt { state, actions };
        usize::from(first_fit(lists.moves, at).map_or(state, |k| lists.moves[k].next))
    }

    fn look(&self, agent: usize, state: usize) -> u16 {
        let lists = self.lists;
        if agent >= lists.agents || state >= lists.states {
            return 0;
        }
        lists.looks[state * lists.agents + agent]
    }

    fn holds(&self, atom: usize, state: usize) -> bool {
        let lists = self.lists;
        if atom >= lists.atoms || state >= lists.states {
            return false;
        }
        (lists.marks[state] >> atom) % 2 == 1
    }

    fn start(&self, state: usize) -> bool {
        state < self.lists.states && self.lists.starts[state] != 0
    }
}

// Whether each mask has the action of its agent.
fn masks_allow(masks: &[u8], actions: [u8; 6]) -> bool
    requires { length masks.now ≤ 6 }
    ensures { result ≡ all_below (length masks.now) (λ i. bit (slice_index masks.now i) (slice_index actions i)) }
{
    masks
        .iter()
        .zip(&actions)
        .all(|(&mask, &action)| in_mask(mask, action))
}
