// What a system, a goal, a play and a plan mean, and the strategy theorem.
#![tactic(auto)]

pub mod choice;
pub mod fault;
pub mod goal;
pub mod system;

ghost use Rattle.game.specs.Van.{VanCase};
ghost use Rattle.game.specs.Theorems.{StrategyTheorem, SheetsExist, GrantedWhereEnsured, PlaysExist, SetsAgree, SheetsAgree, ChoicesAreSums, WordsAreGoals, SetsDecideFormulas, FormulasAreSpelled, GoalsHaveSets};

pub fn strategy_theorem_stands() -> u8
    ensures { StrategyTheorem }
{
    0
}

pub fn sheets_exist() -> u8
    ensures { SheetsExist }
{
    0
}

pub fn granted_where_ensured() -> u8
    ensures { GrantedWhereEnsured }
{
    0
}

pub fn plays_exist() -> u8
    ensures { PlaysExist }
{
    0
}

pub fn sets_agree() -> u8
    ensures { SetsAgree }
{
    0
}

pub fn sheets_agree() -> u8
    ensures { SheetsAgree }
{
    0
}

pub fn van_case_stands() -> u8
    ensures { VanCase }
{
    0
}

pub fn choices_are_sums() -> u8
    ensures { ChoicesAreSums }
{
    0
}

pub fn words_are_goals() -> u8
    ensures { WordsAreGoals }
{
    0
}

pub fn sets_decide_formulas() -> u8
    ensures { SetsDecideFormulas }
{
    0
}

pub fn formulas_are_spelled() -> u8
    ensures { FormulasAreSpelled }
{
    0
}

pub fn goals_have_sets() -> u8
    ensures { GoalsHaveSets }
{
    0
}
