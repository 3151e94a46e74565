// The nested search, left at the first element that does not come to 0.

ghost use Rattle.std.specs.Prelude.{◌<◌, ◌≤◌, unsigned_abs};
ghost use Rattle.finding.specs.Finding.{point, Judged, Tried};

use crate::shells::{cleared_to, reach};
use digits::verdict::Verdict;
use numbers::Element;
use rounds::{Dynamics, Orbit, Trail};

// That x and y are below 2048 is asked of each function that takes them: they come from ranges, and a type for them would be made at every turn only to be taken apart.
// Where the trail of (x, y) returns, if its norm is `norm` and it does not fall.
pub fn tried<D: Dynamics>(map: &D, norm: u32, x: i32, y: i32) -> Option<Orbit>
    requires { (unsigned_abs x < 2048) × ((unsigned_abs y < 2048) × (norm ≤ D.cap map.now)) }
    ensures { Tried (D.next map.now) (D.ring map.now) norm (point x y) result }
{
    let z = Element { x, y };
    if map.norm(z) == norm {
        Trail::new(map, z).walk()
    } else {
        None
    }
}

// The first element, by norm, x and y, that does not come to 0, of those of norm at most `bound`.
// The x and y loops run only at a norm where the sifted shells hold an element that never falls.
pub fn search<D: Dynamics>(map: &D, bound: u32) -> Verdict
    requires { bound ≤ D.cap map.now }
    ensures { Judged (D.next map.now) (D.ring map.now) bound result }
{
    let mut found = Verdict::Cleared;
    let mut clear: u32 = 1;
    'search: for norm in 1..=bound {
        clear = cleared_to(map, clear, norm, bound);
        if norm < clear {
            continue;
        }
        let c = reach(norm);
        for x in -c..=c {
            for y in -c..=c {
                if let Some(Orbit { lead, period }) = tried(map, norm, x, y) {
                    found = Verdict::Barred {
                        first: Element { x, y },
                        lead,
                        period,
                    };
                    break 'search;
                }
            }
        }
    }
    found
}
