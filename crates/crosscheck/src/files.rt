// Procedure files, whole and damaged.
use crate::counts::{Differences, Outcomes};
use crate::file::{bytes_of, words_of};
use crate::hiring::Limits;
use crate::kind::Kind;
use crate::plain::choices_of;
use crate::questions::first_otherwise;
use crate::random::Random;
use crate::refusal::{Refusal, Wrong};
use crate::second_reader::{Found, read_file};
use game::fault::{Reason, Stop};
use game::goal::Word;
use game::system::System;
use procedure::procedure::Procedure;
use procedure::reading::read_whole;
use std::alloc::AllocError;
use std::io;

// Gives the last word the right count, as an end word.
fn recount(words: &mut [Word]) {
    if let Some((last, before)) = words.split_last_mut() {
        let [d, c, ..] = before.len().to_le_bytes();
        last.c = c;
        last.d = d;
    }
}

impl Random {
    // A word of a kind, with any fields near to right.
    fn near_word(&mut self) -> Word {
        Word {
            kind: self.byte(11),
            a: self.byte(4),
            b: self.byte(3),
            c: self.byte(4),
            d: self.byte(4),
        }
    }

    fn edit_field(&mut self, word: &mut Word) {
        let value = match self.below(4) {
            0 => self.byte(256),
            1 => 0,
            _ => self.byte(20),
        };
        match self.below(9) {
            0 => word.kind = self.byte(16),
            1 | 2 => word.a = value & 15,
            3 | 4 => word.b = value,
            5 | 6 => word.c = value,
            _ => word.d = value,
        }
    }

    // Puts a word in, leaves one out or writes one twice.
    fn splice(&mut self, words: &mut Vec<Word>) -> Result<(), AllocError> {
        let spot = self.below(words.len());
        let way = self.below(4);
        if let Some(word) = words.get(spot).copied() {
            match way {
                0 => words.insert(spot, self.near_word())?,
                1 => {
                    let _ = words.remove(spot);
                }
                _ => words.insert(spot, word)?,
            }
        }
        if self.below(4) > 0 {
            recount(words);
        }
        Ok(())
    }

    fn damage_words(&mut self, words: &mut Vec<Word>) -> Result<(), AllocError> {
        for _ in 0..self.below(3) {
            match self.below(8) {
                0..=2 => {
                    let spot = self.below(words.len());
                    if let Some(word) = words.get_mut(spot) {
                        self.edit_field(word);
                    }
                }
                3 => words.truncate(self.below(words.len().saturating_add(1))),
                _ => self.splice(words)?,
            }
        }
        Ok(())
    }

    fn file(&mut self) -> Result<Vec<u8>, AllocError> {
        let limits = if self.once_in(6) {
            Limits {
                agents: 6,
                locals: 16,
                states: 3000,
            }
        } else {
            Limits {
                agents: 3,
                locals: 4,
                states: 48,
            }
        };
        let crew = self.crew(limits)?;
        let count = self.below(5);
        let goals = self.list(
            count,
            |random| Word {
                kind: Kind::Goal as u8,
                a: random.byte(16),
                b: random.byte(256),
                c: random.byte(256),
                d: random.byte(256),
            },
        )?;
        let mut words = words_of(self.heap, &crew, &goals)?;
        self.damage_words(&mut words)?;
        let mut bytes = bytes_of(self.heap, &words)?;
        match self.below(60) {
            0 => bytes.truncate(self.below(5)),
            1 => bytes.truncate(self.below(bytes.len().saturating_add(1))),
            2 => {
                for _ in 0..self.below(20000) {
                    bytes.push(self.byte(256))?;
                }
            }
            _ => {}
        }
        Ok(bytes)
    }
}

// Whether both readers found the same. Of a large system only the number of states is compared.
fn same_found(random: &mut Random, read: &Procedure, found: &Found) -> Result<bool, AllocError> {
    if read.goals != found.goals {
        return Ok(false);
    }
    let states = found.crew.states();
    if states.saturating_mul(choices_of(found.crew.members.len())) > 4096 {
        return Ok(read.system.states() == states);
    }
    let plain = found.crew.plain(random.heap)?;
    Ok(first_otherwise(&read.system, &plain, random).is_none())
}

fn agrees(
    random: &mut Random,
    bytes: &[u8],
    second: &Result<Found, Wrong>,
) -> Result<bool, AllocError> {
    match (read_whole(random.heap, bytes), second) {
        (Ok(read), Ok(found)) => same_found(random, &read, found),
        (Err(Stop::Refused(fault)), Err(Wrong::Refused(wanted))) => {
            Ok(Refusal::heard(fault) == *wanted)
        }
        _ => Ok(false),
    }
}

pub(crate) fn compare_files(rt: &HostRuntime, random: &mut Random) -> io::Result<()> {
    let heap = rt.alloc();
    let mut outcomes = Outcomes::new(&[
        Reason::Length,
        Reason::Kind,
        Reason::Unused,
        Reason::Range,
        Reason::Crowded,
        Reason::Count,
    ]);
    let mut differences = Differences::new();
    for k in 0..10000 {
        let bytes = random.file()?;
        let second = read_file(heap, &bytes);
        if !agrees(random, &bytes, &second)? {
            differences.note(|| println!(rt; "file {k} differs: {bytes:?}"))?;
        }
        match second {
            Ok(_) => outcomes.add(None),
            Err(Wrong::Refused(refusal)) => outcomes.add(Some(refusal)),
            Err(Wrong::Memory) => {}
        }
    }
    println!(rt; "procedure files: 10000, {differences}; read {outcomes}")
}
