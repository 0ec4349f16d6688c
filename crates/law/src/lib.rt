// The law over every list of calls of a case.
#![tactic(auto)]

pub mod call;

ghost use Rattle.law.specs.Laws.{Law, RunsExist, SameAnswers, SidesAreParts};

pub fn law_stands() -> u8
    ensures { Law }
{
    0
}

pub fn runs_exist() -> u8
    ensures { RunsExist }
{
    0
}

pub fn same_answers() -> u8
    ensures { SameAnswers }
{
    0
}

pub fn sides_are_parts() -> u8
    ensures { SidesAreParts }
{
    0
}
