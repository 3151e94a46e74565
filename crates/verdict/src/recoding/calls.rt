ghost use Rattle.std.proofs.Common.{lit≤};
ghost use Rattle.digits.specs.Digits.{elems};
ghost use Rattle.verdict.specs.Next.{next, closed, rests};

use crate::bounds::norm_in;
use crate::recoding::Recoding;
use numbers::{Coordinate, Element, NumberSystem, Ruled};
use rounds::Dynamics;

impl<'s, 'd, S: NumberSystem> Dynamics for Recoding<'s, 'd, S> {
    ghost ring = { λ _. S.ring };

    ghost next = { λ r. next S.ring S.lawful r.numeration.width.places r.numeration.width.some (elems r.numeration.digits.now) };

    ghost cap = { λ _. 1560600 };

    ghost lawful = { λ _. S.lawful };

    ghost small = { λ _. lit≤ tt };

    ghost closed = { λ r. closed S.ring S.lawful r.numeration.width.places r.numeration.width.some r.numeration.digits.now };

    ghost rests = { λ r. rests S.ring S.lawful r.numeration.width.places r.numeration.width.some (elems r.numeration.digits.now) };

    fn step(&self, z: Element<i32>) -> Element<i32> {
        match self.numeration.step(z) {
            Some((_digit, remainder)) => remainder,
            None => Element::zero(),
        }
    }

    fn norm(&self, z: Element<i32>) -> u32 {
        norm_in(self.numeration.system, z)
    }
}
