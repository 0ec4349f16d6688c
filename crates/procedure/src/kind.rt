// The kinds of words.
ghost use Rattle.procedure.specs.Kinds.{NamesKind};

use game::fault::Reason;

#[derive(Clone, Copy, PartialEq, Eq, Debug)]
pub enum Kind {
    System,
    Agent,
    Protocol,
    Rule,
    Condition,
    Start,
    Label,
    Goal,
    End,
}

// The kind that has a number.
impl TryFrom<u8> for Kind {
    type Error = Reason;

    ghost try_from_gives = { NamesKind };

    fn try_from(number: u8) -> Result<Kind, Reason> {
        match number {
            1 => Ok(Kind::System),
            2 => Ok(Kind::Agent),
            3 => Ok(Kind::Protocol),
            4 => Ok(Kind::Rule),
            5 => Ok(Kind::Condition),
            6 => Ok(Kind::Start),
            7 => Ok(Kind::Label),
            8 => Ok(Kind::Goal),
            9 => Ok(Kind::End),
            _ => Err(Reason::Kind),
        }
    }
}
