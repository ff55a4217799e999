// The worked cases of docs/RULES.md and docs/BOARDS.md as one list of facts about the definitions that the contracts
// cite.
#![tactic(auto)]

ghost use Rattle.cases.specs.Cases.{WorkedCases};

// Asks for the proof of every case; there is nothing to run.
pub fn worked_cases()
    ensures facts { WorkedCases }
{}
