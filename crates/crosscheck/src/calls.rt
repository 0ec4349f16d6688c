// Sessions on listed games and on agents' systems, over both boards.
use crate::hiring::Limits;
use crate::places::{Used, used_board};
use crate::random::Random;
use crate::second::Second;
use crate::session::Session;
use crate::source::Source;
use crate::tally::Tally;
use boards::{BitBoard, ChangeBoard};
use std::alloc::AllocError;
use std::io;

// Prints the system and the calls up to the one to which something else was said.
fn show(rt: &HostRuntime, board: &str, session: &Session, place: usize) -> io::Result<()> {
    let second = &session.second;
    let plain = second.plain();
    println!(rt; "differs on the board of {board} at call {place}")?;
    println!(rt; "rows {} of {}", second.rows, second.width)?;
    println!(rt; "{plain:?}")?;
    for step in session.steps.iter().take(place.saturating_add(1)) {
        let ask = step.ask;
        let said = step.said;
        println!(rt; "{ask:?} should be {said:?}")?;
    }
    Ok(())
}

// Sessions of one sort, and what they showed.
#[derive(Drop)]
struct Run<'a> {
    rt: &'a HostRuntime,
    tally: Tally,
}

impl Run<'_> {
    // Tries a session on a board, and notes the first call to which something else is said.
    fn try_on<B: Used + Drop, P: Source>(
        &mut self,
        random: &mut Random,
        source: &P,
        session: &Session,
    ) -> io::Result<()> {
        let rt = self.rt;
        let board = used_board::<B>(random, session.second.width, session.second.rows)?;
        if let Some(place) = source.replay(random.heap, board, session) {
            self.tally
                .differences
                .note(|| show(rt, B::NAME, session, place))?;
        }
        Ok(())
    }
}

// Compares so many sessions, each drawn with the source of its system.
fn compare_sessions<P: Source + Drop, F: FnMut(&mut Random) -> Result<(P, Session), AllocError>>(
    rt: &HostRuntime,
    random: &mut Random,
    name: &str,
    count: usize,
    mut draw: F,
) -> io::Result<()>
    requires { F.IsAlwaysCallable draw }
{
    let mut run = Run {
        rt,
        tally: Tally::new(),
    };
    for _ in 0..count {
        let (source, session) = draw(random)?;
        run.try_on::<BitBoard, P>(random, &source, &session)?;
        run.try_on::<ChangeBoard, P>(random, &source, &session)?;
        run.tally.add(&session);
    }
    let tally = &run.tally;
    println!(rt; "{name}: {tally}")
}

impl Random {
    // A number of states that is mostly the given one.
    fn width(&mut self, states: usize) -> usize {
        match self.below(16) {
            0 => states.saturating_add(1),
            1 => states.saturating_sub(1),
            _ => states,
        }
    }
}

pub(crate) fn compare_calls(rt: &HostRuntime, random: &mut Random) -> io::Result<()> {
    compare_sessions(rt, random, "listed games", 4000, |random| {
        let listing = random.listing()?;
        let plain = listing.plain(random.heap)?;
        let states = plain.states.len();
        let second = Second::new(random.heap, plain, 13, states);
        let session = Session::whole(random, second, 12)?;
        Ok((listing, session))
    })?;
    compare_sessions(rt, random, "agents' systems", 4000, |random| {
        let agents = if random.once_in(40) { 6 } else { 3 };
        let crew = random.crew(Limits {
            agents,
            locals: 4,
            states: 48,
        })?;
        let plain = crew.plain(random.heap)?;
        let states = plain.states.len();
        let second = Second::new(random.heap, plain, 13, states);
        let session = Session::whole(random, second, 12)?;
        Ok((crew.file(random.heap)?, session))
    })?;
    compare_sessions(rt, random, "calls in any order", 3000, |random| {
        let listing = random.listing()?;
        let plain = listing.plain(random.heap)?;
        let width = random.width(plain.states.len());
        let rows = if width == 0 { 0 } else { random.below(12) };
        let second = Second::new(random.heap, plain, rows, width);
        let session = Session::any(random, second, 90)?;
        Ok((listing, session))
    })
}
