// The verdict on a full list of digits, and on a set.

ghost use Rattle.std.specs.Prelude.{◌≡◌, MatchResult};
ghost use Rattle.std.specs.List.{ContainsAt as Has};
ghost use Rattle.ring.specs.Class.{Full};
ghost use Rattle.ring.specs.Verdict.{Holds};
ghost use Rattle.digits.specs.Digits.{elems};
ghost use Rattle.refusals.specs.declared.Refusal.TheVariants.{Open};
ghost use Rattle.digits.specs.Verdicts.{verdict_of};
ghost use Rattle.sets.specs.Held.{held, width_of};

use crate::bounds::bound;
use crate::recoding::Recoding;
use digits::numeration::Numeration;
use digits::verdict::Verdict;
use finding::search;
use numbers::{Asks, NumberSystem, Ruled};
use refusals::Refusal;
use sets::table::DigitSet;

// Whether every element has an expansion, and else the first that has none, with the lead and the period of its trail.
pub fn check<S: NumberSystem>(numeration: Numeration<S>) -> Verdict
    requires full { Full S.ring numeration.width.places (Has (elems numeration.digits.now)) }
    ensures { Holds S.ring numeration.entry.width.places (Has (elems numeration.entry.digits.now)) (verdict_of result) }
{
    let last = bound(numeration);
    search(&Recoding { numeration }, last)
}

// The verdict on a set, which finds out itself whether the set is full: else it is refused as open.
pub fn judge<S: NumberSystem>(system: &S, set: &DigitSet) -> Result<Verdict, Refusal>
    ensures { MatchResult result (λ v. Full S.ring (width_of set.now) (Has (held set.now)) × Holds S.ring (width_of set.now) (Has (held set.now)) (verdict_of v)) (λ e. (Full S.ring (width_of set.now) (Has (held set.now)) → ⊥) × (e ≡ Open)) }
{
    if !set.is_full(system) {
        return Err(Refusal::Open);
    }
    Ok(check(set.numeration(system)))
}
