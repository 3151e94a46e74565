ghost use Rattle.std.specs.Prelude.{◌≡◌, Decides, MatchOption};
ghost use Rattle.engine.specs.Rings.{InRing};

use super::Ring;

// Whether t and n are those of a ring that number systems have.
pub fn in_ring(t: i64, n: i64) -> bool
    ensures { Decides result (InRing t n) }
{
    (-1..=1).contains(&t) && (1..=2).contains(&n)
}

impl Ring {
    // The ring of t and n, if number systems have it.
    pub fn new(t: i64, n: i64) -> Option<Ring>
        ensures { MatchOption result (InRing t n → ⊥) (λ r. InRing t n × (r.t ≡ t) × (r.n ≡ n)) }
    {
        if !in_ring(t, n) {
            return None;
        }
        Some(Ring {
            t: t as i32,
            n: n as i32,
        })
    }
}
