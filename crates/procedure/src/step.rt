// One word of a file.
ghost use Rattle.std.specs.Prelude.{◌≡◌, ◌+◌, length};
ghost use Rattle.procedure.specs.Parts.{said, wrong};
ghost use Rattle.procedure.specs.Reader.{part, holds, Took, Ready};

use crate::kind::Kind;
use crate::reader::Reader;
use crate::stage::Stage;
use crate::word::Placed;
use game::fault::{Reason, Stop};
use std::alloc::Global;

impl Reader {
    // Takes the next word, by the stage and its kind.
    pub(crate) fn step(&mut self, heap: Global, next: Placed) -> Result<(), Stop>
        requires ready { Ready self.old.stage self.old }
        requires counted { next.place ≡ length (said (part self.old)) }
        ensures { Took (said (part self.old)) next.word next.place (wrong (holds next.place self.old) next.word) result self.new }
    {
        match (self.stage, Kind::try_from(next.word.kind)) {
            (Stage::Begin, Ok(Kind::System)) => self.system(next),
            (Stage::Agents, Ok(Kind::Agent)) => self.agent(next),
            (Stage::Protocols, Ok(Kind::Protocol)) => self.protocol(next),
            (Stage::Rules, Ok(Kind::Rule)) => self.rule(heap, next),
            (Stage::Rules, Ok(Kind::Agent)) if self.agents.len() + 1 < usize::from(self.n) =>
                self.next_agent(heap, next),
            (Stage::Rules, Ok(Kind::Start)) if self.agents.len() + 1 == usize::from(self.n) =>
                self.first_start(heap, next),
            (Stage::RuleLine, Ok(Kind::Condition)) => self.rule_condition(heap, next),
            (Stage::Starts, Ok(Kind::Start)) => self.start(next),
            (Stage::Starts | Stage::Labels, Ok(Kind::Label)) => self.label(heap, next),
            (Stage::LabelLine, Ok(Kind::Condition)) => self.label_condition(heap, next),
            (Stage::Starts | Stage::Labels | Stage::Goals, Ok(Kind::Goal)) => self.goal(next),
            (Stage::Starts | Stage::Labels | Stage::Goals, Ok(Kind::End)) => self.end(next),
            (Stage::Done, _) => Err(Stop::Refused(next.refuse(Reason::Count))),
            _ => Err(Stop::Refused(next.refuse(Reason::Kind))),
        }
    }
}
