// What each call says, in the numbers of the requirements (specs/Outcomes.antt), as one proved statement.

#![tactic(auto)]

ghost use Rattle.said.specs.Outcomes.{Says};

// Each call of the store and each for C, in any state and for any arguments.
pub fn calls_say()
    ensures { Says }
{}
