// Calls of a case, and what they say.
use crate::refusal::Refusal;
use boards::Board;
use cases::advice::Advice;
use cases::case::Case;
use game::fault::Stop;
use game::goal::Word;
use game::system::System;
use std::alloc::Global;

// The calls that are compared. With the type of all calls, each match on one would have arms for plays that nothing here reaches.
#[derive(Clone, Copy, Debug)]
pub enum Ask {
    Enter(Word),
    Settle,
    Query(usize, usize),
    Plan(usize),
    Move(usize),
    Reply(usize, usize),
}

// What a call says. A refusal is spelled out here, where the law's answers leave number and layer to the proved code. Lost stands for want
// of memory, which no call should say.
#[derive(Clone, Copy, PartialEq, Eq, Debug)]
pub enum Said {
    Number(usize),
    Done,
    Told(bool),
    Entry(usize, usize),
    Refused(Refusal),
    Lost,
}

fn entry(advice: Advice) -> Said {
    Said::Entry(advice.rank, advice.choice)
}

fn call<S: System, B: Board>(heap: Global, case: &mut Case<S, B>, ask: Ask) -> Result<Said, Stop> {
    match ask {
        Ask::Enter(word) => Ok(Said::Number(case.enter(word)?)),
        Ask::Settle => {
            case.settle(heap)?;
            Ok(Said::Done)
        }
        Ask::Query(goal, state) => Ok(Said::Told(case.query(goal, state)?)),
        Ask::Plan(goal) => {
            case.plan(heap, goal)?;
            Ok(Said::Done)
        }
        Ask::Move(state) => Ok(entry(case.move_at(state)?)),
        Ask::Reply(state, choice) => Ok(entry(case.reply(state, choice)?)),
    }
}

// What the case says.
pub(crate) fn hear<S: System, B: Board>(heap: Global, case: &mut Case<S, B>, ask: Ask) -> Said {
    match call(heap, case, ask) {
        Ok(said) => said,
        Err(Stop::Refused(fault)) => Said::Refused(Refusal::heard(fault)),
        Err(Stop::Memory) => Said::Lost,
    }
}
