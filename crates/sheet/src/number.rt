// The number fields of a line.

use crate::field::Field;
use numerals::Numeral;
use std::alloc::AllocError;

// A field, and the number that its bytes denote.
#[derive(Debug, PartialEq, Eq)]
pub struct Number<'a, N: Numeral> {
    pub field: Field<'a>,
    pub value: N,
    ghost denotes: { N.denotes field.text.now value } by { N.once field.text.now value },
}

// Written out, since `Clone` is not derived for a struct with a ghost field and a type parameter.
impl<'a, N: Numeral> Copy for Number<'a, N> {}

impl<'a, N: Numeral> Clone for Number<'a, N> {
    ghost use Rattle.std.specs.Prelude.{◌≡◌, ⊤};

    ghost is_clone = { λ n m. m ≡ n };

    ghost is_infallible = { λ _. ⊤ };

    fn clone(&self) -> Result<Number<'a, N>, AllocError> {
        Ok(Number {
            field: self.field,
            value: self.value,
        })
    }
}

impl<'a, N: Numeral> Number<'a, N> {
    ghost use Rattle.std.specs.Prelude.{◌≡◌, MatchOption};
    ghost use Rattle.sheet.specs.Parting.{bytes};

    // The number that the field denotes.
    pub fn read(field: Field<'a>) -> Option<Number<'a, N>>
        ensures { MatchOption result ((x : N) → N.denotes (bytes field.entry) x → ⊥) (λ n. n.field ≡ field.entry) }
    {
        let value = N::read(field.text)?;
        Some(Number { field, value })
    }
}
