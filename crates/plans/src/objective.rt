// What a group is to bring about.

// X c, G c and c U d over sets of states: a flag for each state, and no state past the end.
#[derive(Clone, Copy, Drop)]
pub enum Objective<'a> {
    Next(&'a [bool]),
    Always(&'a [bool]),
    Until(&'a [bool], &'a [bool]),
}
