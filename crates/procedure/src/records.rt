// The readers of records.
ghost use Rattle.std.specs.Prelude.{◌≡◌, ◌+◌, ◌<◌, true, false, [], length, vec_len, None, MatchOption, MatchResult, slice_index};
ghost use Rattle.procedure.specs.Parts.{told, heads, begun, ruled, labelled, aimed, judged, unnamed, system_fits, agent_fits, protocol_fits, line_fits, test_fits, want_fits, start_fits, crowded, miscounted};
ghost use Rattle.procedure.specs.Reader.{part, full_sizes, own_sizes, Took, Ready, Within, Between, Complete, Finished, ClosedRule, ClosedLabel};
ghost use Rattle.procedure.specs.Texts.{condition_word};
ghost use Rattle.procedure.specs.declared.stage.Stage.TheVariants as stage;
ghost use Rattle.game.specs.declared.fault.Stop.TheVariants.{Memory};

use crate::reader::Reader;
use crate::stage::Stage;
use crate::word::Placed;
use game::fault::{Reason, Stop};
use game::goal::Word;
use std::alloc::Global;
use systems::agent::Agent;
use systems::line::{Condition, Label, LocalState, Rule};

// The field b of a condition that names no agent, else 0.
fn idle(word: Word) -> u8
    ensures { result ≡ unnamed word }
{
    if word.a == 2 || word.a == 3 {
        0
    } else {
        word.b
    }
}

// At most 8 conditions, and the line's number below the limit.
fn line_fits(word: Word, limit: u8) -> bool
    ensures { result ≡ line_fits limit word }
{
    word.a <= 8 && word.d < limit
}

// What the reader keeps at a stage stands in the contracts. As a ghost field it would be stated over the fifteen fields one by one, where
// `Ready` speaks of the reader as a whole; and it would have to hold where memory is wanting halfway, with the masks of an agent taken out.
// Rule lines and label lines have methods each: they differ in their conditions, what a line becomes, where that goes and the stage after
// it, and one generic line would share the two assignments at its start and the count.
impl Reader {
    pub(crate) fn system(&mut self, next: Placed) -> Result<(), Stop>
        requires at { self.old.stage ≡ stage.Begin }
        requires kind { next.word.kind ≡ 1 }
        requires ready { Ready stage.Begin self.old }
        ensures { Took [] next.word next.place (judged next.word.a (system_fits next.word) None) result self.new }
    {
        next.unused(next.word.a, 0)?;
        next.ranged(next.word.b > 0 && next.word.b < 7 && next.word.c < 29 && next.word.d == 1)?;
        self.n = next.word.b;
        self.atoms = next.word.c;
        self.stage = Stage::Agents;
        Ok(())
    }

    pub(crate) fn agent(&mut self, next: Placed) -> Result<(), Stop>
        requires kind { next.word.kind ≡ 2 }
        requires between { Between self.old }
        requires more { vec_len self.old.agents < self.old.n }
        ensures { Took (heads (part self.old)) next.word next.place
            (judged (next.word.a + next.word.d) (agent_fits (vec_len self.old.agents) next.word) (crowded self.old.states next.word)) result self.new }
    {
        next.unused(next.word.a, next.word.d)?;
        next.ranged(
            usize::from(next.word.b) == self.agents.len() && next.word.c > 0 && next.word.c < 17,
        )?;
        let states = self.states as u32 * next.word.c as u32;
        if states > 1024 {
            return Err(Stop::Refused(next.refuse(Reason::Crowded)));
        }
        self.states = states as u16;
        self.locals = next.word.c;
        self.stage = Stage::Protocols;
        Ok(())
    }

    pub(crate) fn protocol(&mut self, next: Placed) -> Result<(), Stop>
        requires at { self.old.stage ≡ stage.Protocols }
        requires kind { next.word.kind ≡ 3 }
        requires ready { Ready stage.Protocols self.old }
        ensures { Took (told stage.Protocols (part self.old)) next.word next.place
            (judged (next.word.a + next.word.b) (protocol_fits (vec_len self.old.masks) next.word) None) result self.new }
    {
        next.unused(next.word.a, next.word.b)?;
        next.ranged(
            next.word.c as usize == self.masks.len() && next.word.d > 0 && next.word.d < 16,
        )?;
        self.masks.push(next.word.d)?;
        if self.masks.len() == self.locals as usize {
            self.stage = Stage::Rules;
        }
        Ok(())
    }

    pub(crate) fn rule(&mut self, heap: Global, next: Placed) -> Result<(), Stop>
        requires at { self.old.stage ≡ stage.Rules }
        requires kind { next.word.kind ≡ 4 }
        requires ready { Ready stage.Rules self.old }
        ensures { Took (told stage.Rules (part self.old)) next.word next.place
            (judged (next.word.b + next.word.c) (line_fits self.old.locals next.word) None) result self.new }
    {
        next.unused(next.word.b, next.word.c)?;
        next.ranged(line_fits(next.word, self.locals))?;
        self.line = next.word.d;
        self.left = next.word.a;
        if next.word.a == 0 {
            return self.close_rule(heap);
        }
        self.stage = Stage::RuleLine;
        Ok(())
    }

    // The rule line under way has all its conditions.
    fn close_rule(&mut self, heap: Global) -> Result<(), Stop>
        requires within { Within self.old }
        requires masks { vec_len self.old.masks ≡ self.old.locals }
        requires lands { self.old.line < self.old.locals }
        ensures { MatchResult result (λ _. ClosedRule self.old self.new) (λ e. e ≡ Memory) }
    {
        let conditions = std::mem::replace(&mut self.tests, Vec::new(heap));
        self.rules.push(Rule {
            conditions,
            next: self.line,
        })?;
        self.stage = Stage::Rules;
        Ok(())
    }

    pub(crate) fn rule_condition(&mut self, heap: Global, next: Placed) -> Result<(), Stop>
        requires at { self.old.stage ≡ stage.RuleLine }
        requires kind { next.word.kind ≡ 5 }
        requires ready { Ready stage.RuleLine self.old }
        ensures { Took (told stage.RuleLine (part self.old)) next.word next.place
            (judged (next.word.c + unnamed next.word) (test_fits self.old.locals (slice_index (own_sizes self.old) 0) self.old.n next.word) None)
            result self.new }
    {
        next.unused(next.word.c, idle(next.word))?;
        let test = self.test(next.word).ok_or(next.refuse(Reason::Range))?;
        self.tests.push(test)?;
        self.left -= 1;
        if self.left == 0 {
            return self.close_rule(heap);
        }
        Ok(())
    }

    // How many local states agent 0 has, who may be the one under way.
    fn first(&self) -> u8
        ensures { result ≡ slice_index (own_sizes self.now) 0 }
    {
        self.agents
            .first()
            .map_or(self.locals, |agent| agent.locals)
    }

    // The condition of a rule line that a word says, where its numbers are in their ranges.
    fn test(&self, word: Word) -> Option<Condition>
        ensures { MatchOption result (test_fits self.now.locals (slice_index (own_sizes self.now) 0) self.now.n word ≡ false)
            (λ t. (test_fits self.now.locals (slice_index (own_sizes self.now) 0) self.now.n word ≡ true) × (word.kind ≡ 5 → word.c + unnamed word ≡ 0 → condition_word t ≡ word)) }
    {
        match word.a {
            0 if word.d < self.locals => Some(Condition::Own(word.d)),
            1 if word.d < self.first() => Some(Condition::First(word.d)),
            2 if word.b < self.n && word.d < 4 => Some(Condition::Action(word.b, word.d)),
            _ => None,
        }
    }

    // The agent under way has all its rule lines.
    fn finish(&mut self, heap: Global) -> Result<(), Stop>
        requires ready { Ready stage.Rules self.old }
        ensures { MatchResult result (λ _. Finished self.old self.new) (λ e. e ≡ Memory) }
    {
        let masks = std::mem::replace(&mut self.masks, Vec::new(heap));
        let rules = std::mem::replace(&mut self.rules, Vec::new(heap));
        self.agents.push(Agent {
            locals: self.locals,
            masks,
            rules,
        })?;
        Ok(())
    }

    // The agent word after another agent.
    pub(crate) fn next_agent(&mut self, heap: Global, next: Placed) -> Result<(), Stop>
        requires kind { next.word.kind ≡ 2 }
        requires ready { Ready stage.Rules self.old }
        requires more { vec_len self.old.agents + 1 < self.old.n }
        ensures { Took (ruled (part self.old)) next.word next.place
            (judged (next.word.a + next.word.d) (agent_fits (vec_len self.old.agents + 1) next.word) (crowded self.old.states next.word)) result self.new }
    {
        self.finish(heap)?;
        self.agent(next)
    }

    // The start word after the last agent.
    pub(crate) fn first_start(&mut self, heap: Global, next: Placed) -> Result<(), Stop>
        requires kind { next.word.kind ≡ 6 }
        requires ready { Ready stage.Rules self.old }
        requires last { vec_len self.old.agents + 1 ≡ self.old.n }
        ensures { Took (ruled (part self.old)) next.word next.place
            (judged (next.word.a + next.word.b) (start_fits self.old.states next.word) None) result self.new }
    {
        self.finish(heap)?;
        self.start(next)
    }

    pub(crate) fn start(&mut self, next: Placed) -> Result<(), Stop>
        requires kind { next.word.kind ≡ 6 }
        requires complete { Complete self.old }
        requires none { (self.old.labels.items ≡ []) × (self.old.goals.items ≡ []) × (self.old.wants.items ≡ []) }
        ensures { Took (begun (part self.old)) next.word next.place
            (judged (next.word.a + next.word.b) (start_fits self.old.states next.word) None) result self.new }
    {
        next.unused(next.word.a, next.word.b)?;
        let state = next.word.c as u16 * 256 + next.word.d as u16;
        next.ranged(state < self.states)?;
        self.starts.push(state)?;
        self.stage = Stage::Starts;
        Ok(())
    }

    pub(crate) fn label(&mut self, heap: Global, next: Placed) -> Result<(), Stop>
        requires kind { next.word.kind ≡ 7 }
        requires complete { Complete self.old }
        requires begins { 0 < vec_len self.old.starts }
        requires goals { self.old.goals.items ≡ [] }
        requires none { self.old.wants.items ≡ [] }
        ensures { Took (labelled (part self.old)) next.word next.place
            (judged (next.word.b + next.word.c) (line_fits self.old.atoms next.word) None) result self.new }
    {
        next.unused(next.word.b, next.word.c)?;
        next.ranged(line_fits(next.word, self.atoms))?;
        self.line = next.word.d;
        self.left = next.word.a;
        if next.word.a == 0 {
            return self.close_label(heap);
        }
        self.stage = Stage::LabelLine;
        Ok(())
    }

    pub(crate) fn label_condition(&mut self, heap: Global, next: Placed) -> Result<(), Stop>
        requires at { self.old.stage ≡ stage.LabelLine }
        requires kind { next.word.kind ≡ 5 }
        requires ready { Ready stage.LabelLine self.old }
        ensures { Took (told stage.LabelLine (part self.old)) next.word next.place
            (judged (next.word.c + unnamed next.word) (want_fits (full_sizes self.old) next.word) None) result self.new }
    {
        next.unused(next.word.c, idle(next.word))?;
        let want = self.want(next.word).ok_or(next.refuse(Reason::Range))?;
        self.wants.push(want)?;
        self.left -= 1;
        if self.left == 0 {
            return self.close_label(heap);
        }
        Ok(())
    }

    // The condition of a label line that a word says, where its numbers are in their ranges. An agent that there is not has no local
    // states.
    fn want(&self, word: Word) -> Option<LocalState>
        ensures { MatchOption result (want_fits (full_sizes self.now) word ≡ false)
            (λ t. (want_fits (full_sizes self.now) word ≡ true) × (t ≡ record { agent = word.b; value = word.d })) }
    {
        let agent = word.b;
        let value = word.d;
        let size = self
            .agents
            .get(usize::from(agent))
            .map_or(0, |agent| agent.locals);
        (word.a == 3 && value < size).then_some(LocalState { agent, value })
    }

    // The label line under way has all its conditions.
    fn close_label(&mut self, heap: Global) -> Result<(), Stop>
        requires complete { Complete self.old }
        requires begins { 0 < vec_len self.old.starts }
        requires goals { self.old.goals.items ≡ [] }
        ensures { MatchResult result (λ _. ClosedLabel self.old self.new) (λ e. e ≡ Memory) }
    {
        let conditions = std::mem::replace(&mut self.wants, Vec::new(heap));
        self.labels.push(Label {
            atom: self.line,
            conditions,
        })?;
        self.stage = Stage::Labels;
        Ok(())
    }

    // The fields of a goal word are left as they are.
    pub(crate) fn goal(&mut self, next: Placed) -> Result<(), Stop>
        requires kind { next.word.kind ≡ 8 }
        requires complete { Complete self.old }
        requires begins { 0 < vec_len self.old.starts }
        ensures { Took (aimed (part self.old)) next.word next.place None result self.new }
    {
        self.goals.push(next.word)?;
        self.stage = Stage::Goals;
        Ok(())
    }

    pub(crate) fn end(&mut self, next: Placed) -> Result<(), Stop>
        requires kind { next.word.kind ≡ 9 }
        requires complete { Complete self.old }
        requires begins { 0 < vec_len self.old.starts }
        requires counted { next.place ≡ length (aimed (part self.old)) }
        ensures { Took (aimed (part self.old)) next.word next.place (judged (next.word.a + next.word.b) true (miscounted next.place next.word)) result self.new }
    {
        next.unused(next.word.a, next.word.b)?;
        if next.word.c as usize * 256 + next.word.d as usize != next.place {
            return Err(Stop::Refused(next.refuse(Reason::Count)));
        }
        self.stage = Stage::Done;
        Ok(())
    }
}
