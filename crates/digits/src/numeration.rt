ghost use Rattle.std.specs.Prelude.{◌≡◌, ⊤};

use crate::digit::Digit;
use crate::width::Width;
use std::alloc::AllocError;

pub mod classes;
pub mod steps;

// What recoding goes by: a number system, a width and a list of digits.
pub struct Numeration<'s, 'd, S> {
    pub system: &'s S,
    pub width: Width,
    pub digits: &'d [Digit],
}

// Copied whatever the system is, which a derive would ask to be copied too.
impl<'s, 'd, S> Copy for Numeration<'s, 'd, S> {}

impl<'s, 'd, S> Clone for Numeration<'s, 'd, S> {
    ghost is_clone = { λ numeration copy. copy ≡ numeration };

    ghost is_infallible = { λ _. ⊤ };

    fn clone(&self) -> Result<Self, AllocError> {
        Ok(*self)
    }
}
