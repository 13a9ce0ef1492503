//! The worked cases of the rules, held against the definitions.
#![tactic(auto)]

ghost use Rattle.cases.specs.Cases.{WorkedCasesHold};

pub mod small_nodes;

pub fn worked_cases_hold() -> u8
    ensures { WorkedCasesHold }
{
    0
}
