// Announce and tell on the token of one play.
ghost use Rattle.cases.specs.Shows.{model, system_of};
ghost use Rattle.rehearsal.specs.Turning.{call_of};
ghost use Rattle.rehearsal.specs.Served.{Turns};

use boards::Board;
use cases::case::Case;
use cases::outcome::{Announced, HandedBack, Play};
use game::system::System;
use law::call::Answer;

// The two calls that turn a play from one sort to the other.
#[derive(Clone, Copy)]
pub(crate) enum Turn {
    Announce,
    Tell(usize),
}

// The answer to a call on a play, and the play after it.
pub(crate) struct Turned {
    pub(crate) answer: Answer,
    pub(crate) play: Play,
}

pub(crate) fn turn_play<S: System, B: Board>(case: &Case<S, B>, play: Play, turn: Turn) -> Turned
    ensures { Turns (S.System.means (system_of case.now)) (model B.Board.shows case.now) play (call_of turn) result.answer result.play }
{
    match (turn, play) {
        (Turn::Announce, Play::Move(play)) => match case.announce(play) {
            Ok(Announced { rank, choice, play }) => Turned {
                answer: Answer::Entry(rank, choice),
                play: Play::Reply(play),
            },
            Err(HandedBack { fault, play }) => Turned {
                answer: Answer::Refused(fault),
                play: Play::Move(play),
            },
        },
        (Turn::Tell(reply), Play::Reply(play)) => match case.tell(play, reply) {
            Ok(play) => Turned {
                answer: Answer::Done,
                play: Play::Move(play),
            },
            Err(HandedBack { fault, play }) => Turned {
                answer: Answer::Refused(fault),
                play: Play::Reply(play),
            },
        },
        // a play that awaits the other call
        (Turn::Announce, Play::Reply(play)) => Turned {
            answer: Answer::Idle,
            play: Play::Reply(play),
        },
        (Turn::Tell(_), Play::Move(play)) => Turned {
            answer: Answer::Idle,
            play: Play::Move(play),
        },
    }
}
