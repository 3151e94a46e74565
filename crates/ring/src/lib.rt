// The mathematics of digit sets to a complex base. A function here computes nothing: its contract is a theorem, and the crate is proved only with it.

#![tactic(auto)]

ghost use Rattle.ring.specs.Algebra.{BaseCancels, NormLaws, RingLaws};
ghost use Rattle.ring.specs.Bounds.{LengthBound, LengthFits, NormFalls, ReturnsSoon, StaysWithin};
ghost use Rattle.ring.specs.Theorems.{BoxedTrailReturns, ClassesNumber, ExpansionBegins, FullByNumber, LeadAndPeriod, OneExpansion, OneLeadAndPeriod, OneVerdict, ReturnsAwayFromZero, SearchBound, TrailReachesZero};

// Sums, products and norms keep the laws of a commutative ring, for every t and n.
pub fn ring_laws()
    ensures { RingLaws }
{}

// The norm is positive but at 0, and bounds the coordinates.
pub fn norm_laws()
    ensures { NormLaws }
{}

// Multiplication by the base cancels.
pub fn base_cancels()
    ensures { BaseCancels }
{}

// Over a full set an element has at most one expansion.
pub fn one_expansion()
    ensures { OneExpansion }
{}

// The expansion of an element that the base does not divide begins with its digit and w − 1 zeros.
pub fn expansion_begins()
    ensures { ExpansionBegins }
{}

// An element has an expansion exactly if its trail reaches 0.
pub fn trail_reaches_zero()
    ensures { TrailReachesZero }
{}

// If every element of small norm has an expansion, every element has one.
pub fn search_bound()
    ensures { SearchBound }
{}

// A trail that returns to an element other than 0 never reaches 0.
pub fn returns_away_from_zero()
    ensures { ReturnsAwayFromZero }
{}

// The first element that comes again tells the lead and the period.
pub fn lead_and_period()
    ensures { LeadAndPeriod }
{}

// A trail inside a finite box returns.
pub fn boxed_trail_returns()
    ensures { BoxedTrailReturns }
{}

// A trail has one lead and one period.
pub fn one_lead_and_period()
    ensures { OneLeadAndPeriod }
{}

// A full set has one verdict only.
pub fn one_verdict()
    ensures { OneVerdict }
{}

// The classes at width w that the base does not divide number (p − 1)·p^(w − 1).
pub fn classes_number()
    ensures { ClassesNumber }
{}

// Digits of pairwise different classes are full exactly when they are that many.
pub fn full_by_number()
    ensures { FullByNumber }
{}

// The trail of an element that may be loaded stays below the working limit.
pub fn stays_within()
    ensures { StaysWithin }
{}

// 2k + 2 steps from magnitudes below 2^k lead to norm at most 12·D.
pub fn norm_falls()
    ensures { NormFalls }
{}

// An expansion is no longer than 2k + 2 plus the number of elements of norm at most 12·D.
pub fn length_bound()
    ensures { LengthBound }
{}

// Expansions of elements with magnitudes below 2^56 are shorter than 2^32.
pub fn length_fits()
    ensures { LengthFits }
{}

// A trail that starts at a small norm returns after fewer than 2^24 steps.
pub fn returns_soon()
    ensures { ReturnsSoon }
{}
