// What the check answers at each limit.
#![tactic(auto)]

ghost use Rattle.cases.specs.Cases.{LimitsHold};

// Each file of the list is answered as it says there, by computation.
pub fn limits_hold()
    ensures { LimitsHold }
{}
