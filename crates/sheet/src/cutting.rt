// How a sheet is cut into lines.

ghost use Rattle.sheet.specs.Parting.{Within, Cuts, LinesAreTheSheet};

use crate::field::Field;
use refusals::Refusal;

// The next line of what is left of a sheet, without the byte that ends it, and the sheet behind it; none at the end of the sheet. A last line that no byte ends is refused.
pub fn next_line<'a>(f: Field<'a>) -> Result<Option<(Field<'a>, Field<'a>)>, Refusal>
    requires { Within f }
    ensures { Cuts f.entry result }
{
    // A `?` would not do: that there is no line to cut has two meanings.
    match f.split(b'\n') {
        Some((line, rest)) => Ok(Some((line, rest))),
        None if f.text.is_empty() => Ok(None),
        None => Err(Refusal::Line),
    }
}

// The lines that are cut from a sheet, one behind the other, are the sheet.
pub fn lines_are_the_sheet()
    ensures { LinesAreTheSheet }
{}
