// Two suppliers of units agree. A function here computes nothing: its contract is a theorem, and the crate is proved only with it.
ghost use Rattle.rules.specs.Theorems.{Agree, UnitsAgree};

// Two histories of the same calls, over the same system and engine ring, whose answers are by the definitions, are equal.
pub fn logs_agree()
    ensures { Agree }
{}

// And two units of which the theorem holds tell the same after the same calls.
pub fn units_agree<E, F, C>()
    ensures { UnitsAgree E F C }
{}
