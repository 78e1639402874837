// Wu's Definition 1.
#![tactic(auto)]

ghost use Rattle.safety.specs.Safety.{Recurrence};

// With bit 0 taken as 1, every bit from 1 obeys one recurrence.
pub fn one_recurrence()
    ensures { Recurrence }
{}
