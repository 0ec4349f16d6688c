// Refusals, and why a reading or a call did nothing.
ghost use Rattle.std.specs.Prelude.{◌≡◌, Some};
ghost use Rattle.game.specs.Faults.{number_of, layer_of, letter, fault_text, stop_text};
ghost use Rattle.game.specs.declared.fault.Stop.TheVariants.{Refused, Memory};

use std::alloc::{AllocError, AllocFailed};
use std::error::Error;
use std::fmt;

// W, R, S and C: a word, a record of words, a system, a case.
#[derive(Clone, Copy, PartialEq, Eq, Debug)]
pub enum Layer {
    Word,
    Record,
    System,
    Case,
}

impl fmt::Display for Layer {
    ghost output = { λ x. Some (letter x) };

    fn fmt<W: fmt::Write>(&self, f: &mut fmt::Formatter<W>) -> fmt::Result {
        f.write_str(match self {
            Layer::Word => "W",
            Layer::Record => "R",
            Layer::System => "S",
            Layer::Case => "C",
        })
    }
}

// What is wrong. Each reason has a number, by which it is printed, and the layer that finds it.
#[derive(Clone, Copy, PartialEq, Eq, Debug)]
pub enum Reason {
    // a procedure file: its length, the kind of a word, a field that is not used, a number out of its range, too many states,
    // the count in the end word
    Length,
    Kind,
    Unused,
    Range,
    Crowded,
    Count,
    // the lists of a listed game
    Shape,
    Entry,
    NoStart,
    // a goal that is entered
    NoBoard,
    NoRow,
    NotAGoal,
    NotEarlier,
    NotKnown,
    // the other calls of a case
    NoSuchGoal,
    NotSettled,
    AllSettled,
    NoSuchState,
    NotStrategic,
    NoSheet,
    Denied,
    Granted,
    NotAllowed,
    PlaysUnderWay,
    TooManyPlays,
    NoPlay,
    TooManySteps,
    AlreadyMet,
}

impl Reason {
    pub fn layer(self) -> Layer
        ensures { result ≡ layer_of self }
    {
        match self {
            Reason::Length | Reason::Kind | Reason::Unused => Layer::Word,
            Reason::Range => Layer::Record,
            Reason::Crowded | Reason::Count | Reason::Shape | Reason::Entry | Reason::NoStart =>
                Layer::System,
            _ => Layer::Case,
        }
    }
}

impl From<Reason> for u8 {
    ghost from_gives = { λ reason number. number ≡ number_of reason };

    fn from(reason: Reason) -> u8 {
        match reason {
            Reason::Length => 1,
            Reason::Kind => 2,
            Reason::Unused => 3,
            Reason::Range => 4,
            Reason::Crowded => 6,
            Reason::Count => 8,
            Reason::Shape => 11,
            Reason::Entry => 12,
            Reason::NoStart => 14,
            Reason::NoBoard => 20,
            Reason::NoRow => 21,
            Reason::NotAGoal => 22,
            Reason::NotEarlier => 23,
            Reason::NotKnown => 24,
            Reason::NoSuchGoal => 30,
            Reason::NotSettled => 31,
            Reason::AllSettled => 32,
            Reason::NoSuchState => 33,
            Reason::NotStrategic => 34,
            Reason::NoSheet => 35,
            Reason::Denied => 36,
            Reason::Granted => 37,
            Reason::NotAllowed => 38,
            Reason::PlaysUnderWay => 39,
            Reason::TooManyPlays => 40,
            Reason::NoPlay => 41,
            Reason::TooManySteps => 42,
            Reason::AlreadyMet => 43,
        }
    }
}

// A refusal: its reason, and the place of what is wrong.
#[derive(Clone, Copy, PartialEq, Eq, Debug)]
pub struct Fault {
    pub reason: Reason,
    pub place: usize,
}

impl From<Reason> for Fault {
    ghost from_gives = { λ reason fault. fault ≡ record { reason = reason; place = 0 } };

    fn from(reason: Reason) -> Fault {
        Fault { reason, place: 0 }
    }
}

impl fmt::Display for Fault {
    ghost output = { λ x. Some (fault_text x) };

    fn fmt<W: fmt::Write>(&self, f: &mut fmt::Formatter<W>) -> fmt::Result {
        let number = u8::from(self.reason);
        let layer = self.reason.layer();
        let place = self.place;
        write!(f, "refused {number} {layer} {place}")
    }
}

impl Error for Fault {}

// Why a reading or a call did nothing: it is refused, or memory for it is wanting.
#[derive(Clone, Copy, PartialEq, Eq, Debug)]
pub enum Stop {
    Refused(Fault),
    Memory,
}

impl From<Fault> for Stop {
    ghost from_gives = { λ fault stop. stop ≡ Refused fault };

    fn from(fault: Fault) -> Stop {
        Stop::Refused(fault)
    }
}

impl From<AllocError> for Stop {
    ghost from_gives = { λ _ stop. stop ≡ Memory };

    fn from(_: AllocError) -> Stop {
        Stop::Memory
    }
}

impl<T: Drop> From<AllocFailed<T>> for Stop {
    ghost from_gives = { λ _ stop. stop ≡ Memory };

    fn from(_: AllocFailed<T>) -> Stop {
        Stop::from(AllocError)
    }
}

impl fmt::Display for Stop {
    ghost output = { λ x. Some (stop_text x) };

    fn fmt<W: fmt::Write>(&self, f: &mut fmt::Formatter<W>) -> fmt::Result {
        match self {
            Self::Refused(refusal) => write!(f, "{refusal}"),
            Self::Memory => write!(f, "out of memory"),
        }
    }
}

impl Error for Stop {}
