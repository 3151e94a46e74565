// The parts of a sheet.

ghost use Rattle.std.specs.Prelude.{◌≡◌, MatchOption};
ghost use Rattle.sheet.specs.Parting.{bytes, Within, Free, Split};

// A part of a sheet, and the place of its first byte in the sheet.
// That it ends at a place that can be told (`Within`) is asked where places are told, and not by the type: a number is read of any part.
#[derive(Clone, Copy, Debug, PartialEq, Eq)]
pub struct Field<'a> {
    pub text: &'a [u8],
    pub place: usize,
}

impl<'a> Field<'a> {
    // The whole sheet.
    pub fn whole(sheet: &'a [u8]) -> Field<'a>
        ensures { (bytes result ≡ sheet.now) × (result.place ≡ 0) × Within result }
    {
        Field {
            text: sheet,
            place: 0,
        }
    }

    // The part before the first such byte, and the part behind it.
    pub fn split(self, byte: u8) -> Option<(Field<'a>, Field<'a>)>
        requires { Within self }
        ensures { MatchOption result (Free byte (bytes self.entry)) (λ q. Split byte self.entry q.0 q.1) }
    {
        let k = self.text.iter().position(|b| *b == byte)?;
        let first = Field {
            text: &self.text[..k],
            place: self.place,
        };
        let rest = Field {
            text: &self.text[k + 1..],
            place: self.place + k + 1,
        };
        Some((first, rest))
    }
}
