// Questions about systems, and the check of lists.
use crate::counts::{Differences, Outcomes};
use crate::hiring::Limits;
use crate::plain::{Plain, Seat, State};
use crate::questions::Asked;
use crate::random::Random;
use crate::refusal::Refusal;
use crate::source::Source;
use game::fault::Reason;
use std::alloc::{AllocError, Global};
use std::num::Wrapping;
use std::{fmt, io};
use systems::check::check;

// The systems of which every question was asked.
#[derive(Drop)]
struct Questioned {
    systems: Wrapping<usize>,
    states: Wrapping<usize>,
    choices: Wrapping<usize>,
    differences: Differences,
}

impl Questioned {
    fn new() -> Questioned {
        Questioned {
            systems: Wrapping(0),
            states: Wrapping(0),
            choices: Wrapping(0),
            differences: Differences::new(),
        }
    }

    fn add(&mut self, rt: &HostRuntime, plain: &Plain, found: Option<Asked>) -> io::Result<()> {
        self.systems += 1;
        self.states += plain.states.len();
        self.choices += plain
            .states
            .iter()
            .map(|state| Wrapping(state.nexts.len()))
            .sum::<Wrapping<usize>>();
        if let Some(asked) = found {
            let number = self.systems.0;
            self.differences
                .note(|| println!(rt; "differs at {asked:?} of system {number}"))?;
        }
        Ok(())
    }
}

impl fmt::Display for Questioned {
    fn fmt<W: fmt::Write>(&self, f: &mut fmt::Formatter<W>) -> fmt::Result {
        let systems = self.systems.0;
        let states = self.states.0;
        let choices = self.choices.0;
        let differences = &self.differences;
        write!(
            f,
            "{systems} systems, {states} states, {choices} joint choices, {differences}"
        )
    }
}

// One agent, one state, no atoms, action 0, look 0 and a start.
fn empty_plain(heap: Global) -> Result<Plain, AllocError> {
    let state = State {
        seats: vec![in heap; Seat { mask: 1, look: 0 }]?,
        marks: 0,
        is_start: true,
        nexts: vec![in heap; 0; 4]?,
    };
    Ok(Plain {
        agents: 1,
        atoms: 0,
        states: vec![in heap; state]?,
    })
}

// Lists that are damaged make the empty game where they break a rule.
fn compare_checks(rt: &HostRuntime, random: &mut Random) -> io::Result<()> {
    let heap = rt.alloc();
    let mut opened = Questioned::new();
    let mut outcomes = Outcomes::new(&[Reason::Shape, Reason::Entry, Reason::NoStart]);
    let mut differences = Differences::new();
    for k in 0..6000 {
        let mut listing = random.listing()?;
        random.damage(&mut listing)?;
        let broken = listing.broken();
        if check(&listing.lists()).map_err(Refusal::heard) != broken {
            differences.note(|| println!(rt;
                "the check differs at lists {k}, should be {broken:?}"
            ))?;
        }
        outcomes.add(broken.err());
        let plain = match broken {
            Ok(()) => listing.plain(heap)?,
            Err(_) => empty_plain(heap)?,
        };
        let found = listing.first_otherwise(&plain, random);
        opened.add(rt, &plain, found)?;
    }
    println!(rt; "check of lists: {differences}; accepted {outcomes}")?;
    println!(rt; "damaged lists opened: {opened}")
}

// Asks every question of 2,000 systems, each drawn with what it should answer.
fn compare_systems<
    P: Source + Drop,
    F: FnMut(&mut Random, usize) -> Result<(P, Plain), AllocError>,
>(rt: &HostRuntime, random: &mut Random, name: &str, mut draw: F) -> io::Result<()>
    requires { F.IsAlwaysCallable draw }
{
    let mut questioned = Questioned::new();
    for k in 0..2000 {
        let (source, plain) = draw(random, k)?;
        let found = source.first_otherwise(&plain, random);
        questioned.add(rt, &plain, found)?;
    }
    println!(rt; "questions to {name}: {questioned}")
}

pub(crate) fn compare_readings(rt: &HostRuntime, random: &mut Random) -> io::Result<()> {
    compare_systems(rt, random, "listed games", |random, _| {
        let listing = random.listing()?;
        let plain = listing.plain(random.heap)?;
        Ok((listing, plain))
    })?;
    compare_systems(rt, random, "agents' systems", |random, k| {
        let crew = random.crew(Limits {
            agents: if k % 40 == 0 { 6 } else { 3 },
            locals: 5,
            states: 48,
        })?;
        let plain = crew.plain(random.heap)?;
        Ok((crew.file(random.heap)?, plain))
    })?;
    compare_checks(rt, random)
}
