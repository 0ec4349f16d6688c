// What the calls of a play hand out, and what a refusal hands back.
use crate::play::{AwaitingMove, AwaitingReply};
use game::fault::{Fault, Reason};

// A play of either sort.
pub enum Play {
    Move(AwaitingMove),
    Reply(AwaitingReply),
}

pub struct Announced {
    pub rank: usize,
    pub choice: usize,
    pub play: AwaitingReply,
}

// A play that a refusal hands back.
pub struct HandedBack<P> {
    pub fault: Fault,
    pub play: P,
}

// The accepted tells, and whether the goal is met.
#[derive(Clone, Copy, PartialEq, Eq, Debug)]
pub struct Outcome {
    pub steps: usize,
    pub met: bool,
}
