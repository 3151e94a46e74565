// How a line is read.

ghost use Rattle.std.specs.Prelude.{◌≡◌, [], ◌∷◌, MatchOption, MatchResult, ◌≢◌};
ghost use Rattle.sheet.specs.declared.field.Field.{Field};
ghost use Rattle.sheet.specs.Parting.{bytes, Within};
ghost use Rattle.sheet.specs.Shape.{Parts, Numbers, Body, Shape, OneShape, name_of};

use crate::field::Field;
use crate::line::{Line, System};
use crate::number::Number;
use numerals::Numeral;
use refusals::Refusal;

// Two numbers parted by a comma.
fn pair<'a, N: Numeral>(f: Field<'a>) -> Option<(Number<'a, N>, Number<'a, N>)>
    requires { Within f }
    ensures { MatchOption result ((a b : Field) → Numbers N.denotes f.entry.place (bytes f.entry) (a ∷ b ∷ []) → ⊥) (λ q. Parts f.entry.place (bytes f.entry) (q.0.field ∷ q.1.field ∷ [])) }
{
    let (x, y) = f.split(b',')?;
    Some((Number::read(x)?, Number::read(y)?))
}

// Three numbers parted by commas.
fn triple<'a, N: Numeral>(f: Field<'a>) -> Option<(Number<'a, N>, Number<'a, N>, Number<'a, N>)>
    requires { Within f }
    ensures { MatchOption result ((a b c : Field) → Numbers N.denotes f.entry.place (bytes f.entry) (a ∷ b ∷ c ∷ []) → ⊥) (λ q. Parts f.entry.place (bytes f.entry) (q.0.field ∷ q.1.field ∷ q.2.field ∷ [])) }
{
    let (x, rest) = f.split(b',')?;
    let x = Number::read(x)?;
    let (y, z) = pair(rest)?;
    Some((x, y, z))
}

// The system of that name.
fn system_named(name: &[u8]) -> Option<System>
    ensures { MatchOption result ((s : System) → name.now ≢ name_of s) (λ s. name.now ≡ name_of s) }
{
    match name {
        b"kp" => Some(System::Kp),
        b"km" => Some(System::Km),
        b"g5" => Some(System::G5),
        _ => None,
    }
}

// The name of a system, a comma, and three numbers.
fn system<'a>(f: Field<'a>) -> Option<Line<'a>>
    requires { Within f }
    ensures { MatchOption result ((l : Line) → Body 83 f.entry.place (bytes f.entry) l → ⊥) (λ l. Body 83 f.entry.place (bytes f.entry) l) }
{
    let (name, numbers) = f.split(b',')?;
    let system = system_named(name.text)?;
    let (modulus, root, start) = triple(numbers)?;
    Some(Line::System {
        system,
        modulus,
        root,
        start,
    })
}

// What stands behind a letter and its comma.
fn body<'a>(letter: char, f: Field<'a>) -> Option<Line<'a>>
    requires { Within f }
    ensures { MatchOption result ((l : Line) → Body letter f.entry.place (bytes f.entry) l → ⊥) (λ l. Body letter f.entry.place (bytes f.entry) l) }
{
    match letter {
        'S' => system(f),
        'W' => Number::read(f).map(Line::Width),
        'D' => pair(f).map(|(x, y)| Line::Put(x, y)),
        'X' => pair(f).map(|(x, y)| Line::Take(x, y)),
        'Z' => pair(f).map(|(x, y)| Line::Load(x, y)),
        _ => None,
    }
}

// The line that the field is.
pub fn read_line<'a>(f: Field<'a>) -> Result<Line<'a>, Refusal>
    requires { Within f }
    ensures { MatchResult result (λ l. Shape f.entry.place (bytes f.entry) l) (λ e. (e ≡ Refusal.Line) × ((l : Line) → Shape f.entry.place (bytes f.entry) l → ⊥)) }
{
    match f.text {
        [b'C'] => Ok(Line::Check),
        [letter, b',', rest @ ..] => {
            let rest = Field {
                text: rest,
                place: f.place + 2,
            };
            body(char::from(*letter), rest).ok_or(Refusal::Line)
        }
        _ => Err(Refusal::Line),
    }
}

// The same bytes are no two different lines.
pub fn one_shape()
    ensures { OneShape }
{}
