// Reading a file.
ghost use Rattle.std.specs.Prelude.{◌≡◌};
ghost use Rattle.procedure.specs.Words.{words};
ghost use Rattle.procedure.specs.Texts.{described};
ghost use Rattle.procedure.specs.Parts.{whole};
ghost use Rattle.procedure.specs.Reader.{part, Fresh, Ready};
ghost use Rattle.procedure.specs.Faults.{misfit};
ghost use Rattle.procedure.specs.Reading.{Reads, ReadWords, Puts};
ghost use Rattle.procedure.specs.declared.stage.Stage.TheVariants as stage;

use crate::procedure::Procedure;
use crate::reader::Reader;
use crate::stage::Stage;
use crate::word::{Placed, Words};
use game::fault::{Fault, Reason, Stop};
use std::alloc::Global;
use systems::agents::AgentsSystem;

// Empty, not whole words, or above 4,096 words.
fn misfits(length: usize) -> bool
    ensures { result ≡ misfit length }
{
    length == 0 || length % 4 != 0 || length > 16384
}

// Reads a file: the system and the goal words that it says, or the first word that is wrong.
pub fn read_whole(heap: Global, bytes: &[u8]) -> Result<Procedure, Stop>
    ensures { Reads bytes.now result }
{
    let length = bytes.len();
    if misfits(length) {
        return Err(Stop::Refused(Fault {
            reason: Reason::Length,
            place: length / 4,
        }));
    }
    let reader = read_words(heap, bytes)?;
    Ok(reader.procedure())
}

// Reads the words of a file.
fn read_words(heap: Global, bytes: &[u8]) -> Result<Reader, Stop>
    ensures { ReadWords (words bytes.now) result }
{
    let mut reader = fresh(heap);
    for (place, word) in Words(bytes).enumerate() {
        reader.step(heap, Placed { place, word })?;
    }
    match reader.stage {
        Stage::Done => Ok(reader),
        _ => Err(Stop::Refused(Fault {
            reason: Reason::Kind,
            place: bytes.len() / 4,
        })),
    }
}

// A reader that has read nothing.
fn fresh(heap: Global) -> Reader
    ensures at { result.stage ≡ stage.Begin }
    ensures ready { Fresh result }
{
    Reader {
        stage: Stage::Begin,
        n: 0,
        atoms: 0,
        agents: Vec::new(heap),
        states: 1,
        locals: 0,
        masks: Vec::new(heap),
        rules: Vec::new(heap),
        starts: Vec::new(heap),
        labels: Vec::new(heap),
        goals: Vec::new(heap),
        line: 0,
        tests: Vec::new(heap),
        wants: Vec::new(heap),
        left: 0,
    }
}

impl Reader {
    // The system and the goal words that were read.
    fn procedure(self) -> Procedure
        requires { Ready stage.Done self }
        ensures { described result.system result.goals.items ≡ whole (part self) }
    {
        let system = AgentsSystem {
            agents: self.agents,
            labels: self.labels,
            starts: self.starts,
            atoms: self.atoms,
            states: self.states,
        };
        Procedure {
            system,
            goals: self.goals,
        }
    }
}

// Reads a file into its place, and hands out the part of the file that holds the goal words, their fields as they are. A refusal
// leaves the place as it was.
pub fn read<'a>(heap: Global, bytes: &'a [u8], place: &mut AgentsSystem) -> Result<&'a [u8], Stop>
    ensures { Puts bytes.now place.old place.new result }
{
    let procedure = read_whole(heap, bytes)?;
    let end = bytes.len() - 4;
    let goals = &bytes[end - 4 * procedure.goals.len()..end];
    *place = procedure.system;
    Ok(goals)
}
