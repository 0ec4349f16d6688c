// The two sorts of play: one awaits a move of the group, the other a reply to the announced move.
// They are plain numbers that only the calls of a case make and take. Neither can be let go: only `end` takes one back.
ghost use Rattle.std.specs.Prelude.{◌<◌};

pub struct AwaitingMove {
    pub(crate) state: usize,
    pub(crate) steps: usize,
}

pub struct AwaitingReply {
    pub(crate) state: usize,
    pub(crate) steps: usize,
    pub(crate) choice: usize,
    // no move is announced after more
    ghost few: { steps < 65535 },
}
