// How far a file has been read.

// Nothing read; the system word read; in an agent's protocol words; after them, between its rule lines; within a rule line; after a
// start; after a label line; within a label line; after a goal; after the end word.
#[derive(Clone, Copy)]
pub enum Stage {
    Begin,
    Agents,
    Protocols,
    Rules,
    RuleLine,
    Starts,
    Labels,
    LabelLine,
    Goals,
    Done,
}
