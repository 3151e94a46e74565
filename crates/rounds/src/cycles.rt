// Cycles of trails, found in constant memory.

ghost use Rattle.std.specs.Prelude.{◌≡◌, ◌≤◌, Decides, MatchOption};
ghost use Rattle.ring.specs.System.{size};
ghost use Rattle.ring.specs.Verdict.{Before};
ghost use Rattle.numbers.specs.Meaning.{short};
ghost use Rattle.rounds.specs.Rounds.{after, Falls, CycleAt, LeadIs, Runs};

use crate::dynamics::Dynamics;
use crate::order::before;
use crate::trail::Trail;
use numbers::Element;

// The element after `from` steps returns after `period` more.
#[derive(Clone, Copy, Debug, PartialEq, Eq)]
pub struct Cycle {
    pub from: u32,
    pub period: u32,
}

// The trail returns after `lead` steps, and no sooner, with this period.
#[derive(Clone, Copy, Debug, PartialEq, Eq)]
pub struct Orbit {
    pub lead: u32,
    pub period: u32,
}

impl<'d, D: Dynamics> Trail<'d, D> {
    // Whether z comes before the first element, so that the trail falls where it comes to z.
    pub fn falls_to(&self, z: Element<i32>) -> bool
        requires { size (D.ring self.now.map.now) (short z) ≤ D.cap self.now.map.now }
        ensures { Decides result (Before (D.ring self.now.map.now) (short z) (short self.now.first.element)) }
    {
        before(self.map, z, self.first)
    }

    // Follows the trail until it comes to an element before its first one, or returns, by Brent's method: the mark stands at index power − 1, and `gone` counts the steps from it.
    // One loop, since laps from mark to mark, each a `for`, took a twentieth more instructions.
    pub fn find_cycle(&self) -> Option<Cycle>
        ensures { MatchOption result (Falls (D.next self.now.map.now) (D.ring self.now.map.now) (short self.now.first.element)) (λ c. CycleAt (D.next self.now.map.now) (D.ring self.now.map.now) (short self.now.first.element) c.from c.period) }
    {
        let mut mark = self.first.element;
        let mut hare = mark;
        let mut power: u32 = 1;
        let mut gone: u32 = 0;
        'follow: loop {
            hare = self.map.step(hare);
            gone += 1;
            if hare == mark {
                return Some(Cycle {
                    from: power - 1,
                    period: gone,
                });
            }
            if self.falls_to(hare) {
                return None;
            }
            if gone == power {
                mark = hare;
                power *= 2;
                gone = 0;
            }
        }
    }

    // The element after `count` steps.
    // A loop, since a fold leaves its calls and what it answers to proofs by hand.
    pub fn advance(&self, count: u32) -> Element<i32>
        ensures { short result ≡ after (D.next self.now.map.now) count (short self.now.first.element) }
    {
        let mut ahead = self.first.element;
        for _ in 0..count {
            ahead = self.map.step(ahead);
        }
        ahead
    }

    // The least number of steps to an element that returns, found by two elements a period apart.
    pub fn lead_of(&self, cycle: Cycle) -> u32
        requires { CycleAt (D.next self.now.map.now) (D.ring self.now.map.now) (short self.now.first.element) cycle.from cycle.period }
        ensures { LeadIs (D.next self.now.map.now) (short self.now.first.element) cycle.from cycle.period result }
    {
        let mut behind = self.first.element;
        let mut ahead = self.advance(cycle.period);
        for lead in 0..cycle.from {
            if behind == ahead {
                return lead;
            }
            behind = self.map.step(behind);
            ahead = self.map.step(ahead);
        }
        cycle.from
    }

    // Where the trail returns, or none if it falls to an element before its first one.
    pub fn walk(&self) -> Option<Orbit>
        ensures { Runs (D.next self.now.map.now) (D.ring self.now.map.now) (short self.now.first.element) result }
    {
        let cycle = self.find_cycle()?;
        Some(Orbit {
            lead: self.lead_of(cycle),
            period: cycle.period,
        })
    }
}
