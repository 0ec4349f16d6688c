// The eleven calls of a case, and their answers.
use game::fault::Fault;
use game::goal::Word;

// Plays are named by their place among those under way.
#[derive(Clone, Copy, PartialEq, Eq, Debug)]
pub enum Call {
    Enter(Word),
    Settle,
    Query(usize, usize),
    Plan(usize),
    Move(usize),
    Reply(usize, usize),
    Begin(usize),
    Announce(usize),
    Tell(usize, usize),
    End(usize),
    Strike(usize),
}

// Number is a goal's, Entry a rank and a choice or reply, Outcome the steps of a play and whether it is met.
// Idle answers a call that names no play, or one of the other sort.
#[derive(Clone, Copy, PartialEq, Eq, Debug)]
pub enum Answer {
    Number(usize),
    Done,
    Told(bool),
    Entry(usize, usize),
    Outcome(usize, bool),
    Refused(Fault),
    Idle,
}
