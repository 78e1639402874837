// The lettered cases of document 01.
#![tactic(auto)]

ghost use Rattle.cases.specs.Lettered.{Holds};

// All lettered cases hold of the definitions.
pub fn lettered()
    ensures { Holds }
{}
