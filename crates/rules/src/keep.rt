// The theorem about every list of calls on a unit, over any type of engines with any carrier of points. A function here computes nothing: its contract is the theorem.
ghost use Rattle.rules.specs.Theorems.{HoldsThroughout, Keeps};

// What is to hold after a history holds of every unit that comes from it.
pub fn holds_throughout<E, C>()
    ensures { HoldsThroughout E C }
{}

// Every call keeps it so.
pub fn calls_keep<E, C>()
    ensures { Keeps E C }
{}
