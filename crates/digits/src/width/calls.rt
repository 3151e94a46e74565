ghost use Rattle.std.specs.Prelude.{◌≡◌, ◌<◌, ◌≤◌, MatchOption};

use crate::width::Width;

// The widest width of any system.
const WIDEST: u32 = 8;

impl Width {
    // The width 1.
    pub fn narrowest() -> Width
        ensures { result.places ≡ 1 }
    {
        Width { places: 1 }
    }

    // The width, if it is from 1 to 8.
    pub fn new(places: u32) -> Option<Width>
        ensures { MatchOption result ((1 ≤ places) × (places ≤ 8) → ⊥) (λ w. w.places ≡ places) }
    {
        if 1 <= places && places <= WIDEST {
            return Some(Width { places });
        }
        None
    }

    // The number of places.
    pub fn places(self) -> u32
        ensures is { result ≡ self.places }
        ensures some { 1 ≤ result }
        ensures most { result ≤ 8 }
    {
        self.places
    }
}
