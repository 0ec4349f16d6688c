// What a sheet has at a state: the rank, and a choice of the group or a reply of the others.
#[derive(Clone, Copy, PartialEq, Eq, Debug)]
pub struct Advice {
    pub rank: usize,
    pub choice: usize,
}
