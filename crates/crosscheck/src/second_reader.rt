// A second reader of procedure files, one word after the other in the order of the file.
use crate::crew::{Crew, Guarded, Member, Test, states_of};
use crate::hiring::Scope;
use crate::kind::Kind;
use crate::refusal::{Refusal, Wrong};
use game::fault::Reason;
use game::goal::Word;
use std::alloc::Global;

#[derive(Drop)]
pub struct Found {
    pub crew: Crew,
    pub goals: Vec<Word>,
}

// A word and its place in the file.
#[derive(Clone, Copy)]
struct Line {
    place: usize,
    word: Word,
}

impl Line {
    fn refuse<T>(&self, reason: Reason) -> Result<T, Wrong> {
        Err(Wrong::Refused(Refusal::at(reason, self.place)))
    }

    fn zero(&self, field: u8) -> Result<(), Wrong> {
        if field != 0 {
            return self.refuse(Reason::Unused);
        }
        Ok(())
    }

    fn range(&self, fine: bool) -> Result<(), Wrong> {
        if !fine {
            return self.refuse(Reason::Range);
        }
        Ok(())
    }

    // The number that the last two fields make.
    fn number(&self) -> usize {
        usize::from(u16::from_be_bytes([self.word.c, self.word.d]))
    }

    // The test of a rule, within its scope.
    fn rule_test(&self, scope: Scope) -> Option<Test> {
        let Word {
            b: agent,
            d: value,
            ..
        } = self.word;
        match self.word.a {
            0 if usize::from(value) < scope.own => Some(Test::Own(value)),
            1 if usize::from(value) < scope.first => Some(Test::First(value)),
            2 if usize::from(agent) < scope.agents && value < 4 => {
                Some(Test::Action { agent, value })
            }
            _ => None,
        }
    }

    // The test of a label.
    fn label_test(&self, members: &[Member]) -> Option<Test> {
        let Word {
            b: agent,
            d: value,
            ..
        } = self.word;
        let member = members.get(usize::from(agent))?;
        (self.word.a == 3 && usize::from(value) < member.locals()).then_some(Test::Local {
            agent,
            value,
        })
    }
}

// The lines that are not read yet, and how many there are in all.
#[derive(Drop)]
struct Cursor<'a> {
    heap: Global,
    rest: &'a [Line],
    count: usize,
}

impl<'a> Cursor<'a> {
    fn place(&self) -> usize {
        self.rest.first().map_or(self.count, |line| line.place)
    }

    // The next line, if it is of this kind.
    fn next_of(&mut self, kind: Kind) -> Option<Line> {
        let (line, rest) = self.rest.split_first()?;
        if line.word.kind != kind as u8 {
            return None;
        }
        self.rest = rest;
        Some(*line)
    }

    // The next line, which has to be of this kind.
    fn take(&mut self, kind: Kind) -> Result<Line, Wrong> {
        let place = self.place();
        self.next_of(kind)
            .ok_or(Wrong::Refused(Refusal::at(Reason::Kind, place)))
    }

    // All lines of a kind that come next, each read with what belongs to it.
    fn many<T: Drop, F: FnMut(&mut Cursor<'a>, Line) -> Result<T, Wrong>>(
        &mut self,
        kind: Kind,
        mut read: F,
    ) -> Result<Vec<T>, Wrong>
        requires { F.IsAlwaysCallable read }
    {
        let mut list = Vec::new(self.heap);
        // Every turn takes a line, so there are no more turns than lines.
        for _ in 0..self.rest.len() {
            let Some(line) = self.next_of(kind) else {
                break;
            };
            list.push(read(self, line)?)?;
        }
        Ok(list)
    }

    // A rule or a label, whose result is below a limit.
    fn guarded<F: Fn(&Line) -> Option<Test>>(
        &mut self,
        line: Line,
        limit: usize,
        test: F,
    ) -> Result<Guarded, Wrong>
        requires { F.IsAlwaysCallable test }
    {
        let Word { a, b, c, d, .. } = line.word;
        line.zero(b)?;
        line.zero(c)?;
        line.range(a <= 8 && usize::from(d) < limit)?;
        let mut tests = Vec::new(self.heap);
        for _ in 0..a {
            let line = self.take(Kind::Condition)?;
            line.zero(line.word.c)?;
            if line.word.a != 2 && line.word.a != 3 {
                line.zero(line.word.b)?;
            }
            match test(&line) {
                Some(test) => tests.push(test)?,
                None => return line.refuse(Reason::Range),
            }
        }
        Ok(Guarded { result: d, tests })
    }

    fn masks(&mut self, locals: usize) -> Result<Vec<u8>, Wrong> {
        let mut masks = Vec::new(self.heap);
        for local in 0..locals {
            let line = self.take(Kind::Protocol)?;
            let Word { a, b, c, d, .. } = line.word;
            line.zero(a)?;
            line.zero(b)?;
            line.range(usize::from(c) == local && (1..=15).contains(&d))?;
            masks.push(d)?;
        }
        Ok(masks)
    }

    // One of so many agents, after those that are read.
    fn member(&mut self, members: &[Member], agents: usize) -> Result<Member, Wrong> {
        let line = self.take(Kind::Agent)?;
        line.zero(line.word.a)?;
        line.zero(line.word.d)?;
        let own = usize::from(line.word.c);
        line.range(usize::from(line.word.b) == members.len())?;
        line.range((1..=16).contains(&own))?;
        if states_of(members).saturating_mul(own) > 1024 {
            return line.refuse(Reason::Crowded);
        }
        let masks = self.masks(own)?;
        let first = members.first().map_or(own, Member::locals);
        let scope = Scope { agents, first, own };
        let rules = self.many(Kind::Rule, |cursor, line| {
            cursor.guarded(line, own, |line| line.rule_test(scope))
        })?;
        Ok(Member { masks, rules })
    }

    fn members(&mut self, agents: usize) -> Result<Vec<Member>, Wrong> {
        let mut members = Vec::new(self.heap);
        for _ in 0..agents {
            let member = self.member(&members, agents)?;
            members.push(member)?;
        }
        Ok(members)
    }

    fn starts(&mut self, states: usize) -> Result<Vec<usize>, Wrong> {
        let starts = self.many(Kind::Start, |_, line| {
            line.zero(line.word.a)?;
            line.zero(line.word.b)?;
            line.range(line.number() < states)?;
            Ok(line.number())
        })?;
        if starts.is_empty() {
            return Err(Wrong::Refused(Refusal::at(Reason::Kind, self.place())));
        }
        Ok(starts)
    }

    fn crew(&mut self) -> Result<Crew, Wrong> {
        let line = self.take(Kind::System)?;
        let Word { a, b, c, d, .. } = line.word;
        line.zero(a)?;
        line.range((1..=6).contains(&b) && c <= 28 && d == 1)?;
        let atoms = usize::from(c);
        let members = self.members(usize::from(b))?;
        let starts = self.starts(states_of(&members))?;
        let labels = self.many(Kind::Label, |cursor, line| {
            cursor.guarded(line, atoms, |line| line.label_test(&members))
        })?;
        Ok(Crew {
            atoms,
            members,
            starts,
            labels,
        })
    }

    // The end word, and nothing after it.
    fn end(&mut self) -> Result<(), Wrong> {
        let line = self.take(Kind::End)?;
        line.zero(line.word.a)?;
        line.zero(line.word.b)?;
        if line.number() != line.place {
            return line.refuse(Reason::Count);
        }
        match self.rest.first() {
            Some(line) => line.refuse(Reason::Count),
            None => Ok(()),
        }
    }
}

pub(crate) fn read_file(heap: Global, bytes: &[u8]) -> Result<Found, Wrong> {
    let (chunks, rest) = bytes.as_chunks::<4>();
    let count = chunks.len();
    if !rest.is_empty() || !(1..=4096).contains(&count) {
        return Err(Wrong::Refused(Refusal::at(Reason::Length, count)));
    }
    let lines: Vec<Line> = chunks
        .iter()
        .enumerate()
        .map(|(place, &[d, c, b, top])| Line {
            place,
            word: Word {
                kind: top >> 4,
                a: top & 15,
                b,
                c,
                d,
            },
        })
        .collect(heap)?;
    let mut cursor = Cursor {
        heap,
        rest: &lines,
        count,
    };
    let crew = cursor.crew()?;
    let goals = cursor.many(Kind::Goal, |_, line| Ok(line.word))?;
    cursor.end()?;
    Ok(Found { crew, goals })
}
