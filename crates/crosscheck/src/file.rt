// Procedure files of agents' systems.
use crate::crew::{Crew, Guarded, Member, Test};
use crate::kind::Kind;
use game::goal::Word;
use procedure::procedure::Procedure;
use procedure::reading::read_whole;
use std::alloc::{AllocError, Global};
use systems::agents::AgentsSystem;

// The lowest byte of a number.
fn low(n: usize) -> u8 {
    let [low, ..] = n.to_le_bytes();
    low
}

// A word whose last two fields are one number.
pub(crate) fn number_word(kind: Kind, n: usize) -> Word {
    let [d, c, ..] = n.to_le_bytes();
    Word {
        kind: kind as u8,
        a: 0,
        b: 0,
        c,
        d,
    }
}

impl From<Test> for Word {
    fn from(test: Test) -> Word {
        let (a, b, d) = match test {
            Test::Own(value) => (0, 0, value),
            Test::First(value) => (1, 0, value),
            Test::Action { agent, value } => (2, agent, value),
            Test::Local { agent, value } => (3, agent, value),
        };
        Word {
            kind: Kind::Condition as u8,
            a,
            b,
            c: 0,
            d,
        }
    }
}

// A line and its conditions.
fn put_line(words: &mut Vec<Word>, kind: Kind, line: &Guarded) -> Result<(), AllocError> {
    words.push(Word {
        kind: kind as u8,
        a: low(line.tests.len()),
        b: 0,
        c: 0,
        d: line.result,
    })?;
    words.extend(line.tests.iter().map(|test| Word::from(*test)))?;
    Ok(())
}

fn put_member(words: &mut Vec<Word>, number: usize, member: &Member) -> Result<(), AllocError> {
    words.push(Word {
        kind: Kind::Agent as u8,
        a: 0,
        b: low(number),
        c: low(member.locals()),
        d: 0,
    })?;
    for (local, mask) in member.masks.iter().enumerate() {
        words.push(Word {
            kind: Kind::Protocol as u8,
            a: 0,
            b: 0,
            c: low(local),
            d: *mask,
        })?;
    }
    for rule in &member.rules {
        put_line(words, Kind::Rule, rule)?;
    }
    Ok(())
}

// The words of a system and of its goals.
pub(crate) fn words_of(heap: Global, crew: &Crew, goals: &[Word]) -> Result<Vec<Word>, AllocError> {
    let mut words = Vec::new(heap);
    words.push(Word {
        kind: Kind::System as u8,
        a: 0,
        b: low(crew.members.len()),
        c: low(crew.atoms),
        d: 1,
    })?;
    for (number, member) in crew.members.iter().enumerate() {
        put_member(&mut words, number, member)?;
    }
    words.extend(
        crew.starts
            .iter()
            .map(|start| number_word(Kind::Start, *start)),
    )?;
    for label in &crew.labels {
        put_line(&mut words, Kind::Label, label)?;
    }
    words.extend_from_slice(goals)?;
    words.push(number_word(Kind::End, words.len()))?;
    Ok(words)
}

// The bytes of words, the lowest first.
pub(crate) fn bytes_of(heap: Global, words: &[Word]) -> Result<Vec<u8>, AllocError> {
    words
        .iter()
        .flat_map(|word| [word.d, word.c, word.b, (word.kind & 15) << 4 | word.a & 15])
        .collect(heap)
}

// The system of a procedure file.
pub(crate) fn system_of(heap: Global, bytes: &[u8]) -> Option<AgentsSystem> {
    match read_whole(heap, bytes) {
        Ok(Procedure { system, goals: _ }) => Some(system),
        Err(_) => None,
    }
}
