// Refusals as the second implementation states them: every number, layer and place is its own, so that a slip in those of the proved code
// is seen. Only the names of the reasons and of the layers are shared.
use game::fault::{Fault, Layer, Reason};
use std::alloc::{AllocError, AllocFailed};

// The number by which a refusal is printed, the layer that finds it, and the place of what is wrong.
#[derive(Clone, Copy, PartialEq, Eq, Debug)]
pub struct Refusal {
    pub number: u8,
    pub layer: Layer,
    pub place: usize,
}

// The number of a reason.
pub(crate) fn number_of(reason: Reason) -> u8 {
    match reason {
        Reason::Length => 1,
        Reason::Kind => 2,
        Reason::Unused => 3,
        Reason::Range => 4,
        Reason::Crowded => 6,
        Reason::Count => 8,
        Reason::Shape => 11,
        Reason::Entry => 12,
        Reason::NoStart => 14,
        Reason::NoBoard => 20,
        Reason::NoRow => 21,
        Reason::NotAGoal => 22,
        Reason::NotEarlier => 23,
        Reason::NotKnown => 24,
        Reason::NoSuchGoal => 30,
        Reason::NotSettled => 31,
        Reason::AllSettled => 32,
        Reason::NoSuchState => 33,
        Reason::NotStrategic => 34,
        Reason::NoSheet => 35,
        Reason::Denied => 36,
        Reason::Granted => 37,
        Reason::NotAllowed => 38,
        Reason::PlaysUnderWay => 39,
        Reason::TooManyPlays => 40,
        Reason::NoPlay => 41,
        Reason::TooManySteps => 42,
        Reason::AlreadyMet => 43,
    }
}

// The layer of a number: files have the numbers up to 10, lists those up to 19, and a case the others.
fn layer_of(number: u8) -> Layer {
    match number {
        1 | 2 | 3 => Layer::Word,
        4 => Layer::Record,
        5..=19 => Layer::System,
        _ => Layer::Case,
    }
}

impl Refusal {
    // What should be said of a word of a file, or of an entry of a list.
    pub(crate) fn at(reason: Reason, place: usize) -> Refusal {
        let number = number_of(reason);
        Refusal {
            number,
            layer: layer_of(number),
            place,
        }
    }

    // What should be said of a call, which has no places.
    pub(crate) fn of_call(reason: Reason) -> Refusal {
        Refusal::at(reason, 0)
    }

    // What the proved code says.
    pub(crate) fn heard(fault: Fault) -> Refusal {
        Refusal {
            number: u8::from(fault.reason),
            layer: fault.reason.layer(),
            place: fault.place,
        }
    }
}

// Why the second implementation has no answer.
#[derive(Clone, Copy, PartialEq, Eq, Debug)]
pub enum Wrong {
    Refused(Refusal),
    Memory,
}

impl From<Refusal> for Wrong {
    fn from(refusal: Refusal) -> Wrong {
        Wrong::Refused(refusal)
    }
}

impl From<AllocError> for Wrong {
    fn from(_: AllocError) -> Wrong {
        Wrong::Memory
    }
}

impl<T: Drop> From<AllocFailed<T>> for Wrong {
    fn from(_: AllocFailed<T>) -> Wrong {
        Wrong::Memory
    }
}
