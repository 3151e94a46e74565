// Sets worked out by hand: their verdicts hold by the definitions, whatever program finds them.

#![tactic(auto)]

ghost use Rattle.worked.specs.Worked.{WorkedCases};

// Every verdict and expansion of the list holds.
pub fn worked_cases()
    ensures { WorkedCases }
{}
