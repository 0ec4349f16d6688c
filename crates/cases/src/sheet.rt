// The plan sheet of a case: the number of its goal, and an entry for each state.
use arenas::entry::Entry;

#[derive(Drop)]
pub struct Sheet {
    pub(crate) goal: usize,
    pub(crate) entries: Vec<Entry>,
}
