// Demand 3: every accepted message arrives.
#![tactic(auto)]

ghost use Rattle.arrival.specs.Promise.{Promise, Completes, NoEight, NoRefusal, NeverLong};
ghost use Rattle.arrival.specs.Examples.{Examples};

// What holds of every partial walk.
pub fn promise()
    ensures { Promise }
{}

// Every partial walk can be completed.
pub fn completes()
    ensures { Completes }
{}

// Over Fill's vectors Decide never answers 8.
pub fn no_eight()
    ensures { NoEight }
{}

// On a walk Hop refuses nothing.
pub fn no_refusal()
    ensures { NoRefusal }
{}

// No walk is longer than n + 1.
pub fn never_long()
    ensures { NeverLong }
{}

// There is a walk of each kind.
pub fn examples()
    ensures { Examples }
{}
