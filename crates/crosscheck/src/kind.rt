// The words of a procedure file, by their kinds.

#[derive(Clone, Copy)]
pub enum Kind {
    System = 1,
    Agent = 2,
    Protocol = 3,
    Rule = 4,
    Condition = 5,
    Start = 6,
    Label = 7,
    Goal = 8,
    End = 9,
}
