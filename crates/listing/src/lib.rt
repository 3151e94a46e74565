// The lines of a listing, each written into a caller's buffer.

#![tactic(auto)]

ghost use Rattle.std.specs.Prelude.{◌≡◌, ◌+◌, ◌*◌, ◌<◌, ◌≤◌, length, pos};
ghost use Rattle.std.specs.List.{AllByRecursion};
ghost use Rattle.refusals.specs.Refusal.{number_of};
ghost use Rattle.numerals.specs.Numeral.{most, Reads, Writable, written};
ghost use Rattle.numerals.specs.Overwrite.{overwrite};
ghost use Rattle.listing.specs.Lines.{room, fields, line_of, text_of, Printed};

use numerals::{read_as_written, write_bytes, write_number};
use refusals::Refusal;

// The fewest bytes of a buffer for a line.
pub const ROOM: usize = 80;

// A line of a listing.
#[derive(Clone, Copy, Debug, PartialEq, Eq)]
pub enum Line {
    // The answer to a first line: the norm of the base.
    System(u32),
    // The answer to a width: how many classes a full set has a digit in.
    Width(u32),
    // The answer to a put: how many digits are held.
    Put(u32),
    // The answer to a take: how many digits are held.
    Take(u32),
    // The answer to a check that clears the set.
    Cleared,
    // The answer to a check that bars the set: the first element without an expansion, and its lead and period.
    Barred {
        x: i32,
        y: i32,
        lead: u32,
        period: u32,
    },
    // The answer to an accepted load.
    Load,
    // The digit of a tick.
    Tick {
        x: i32,
        y: i32,
    },
    // The end of a run: how many ticks it had, and the total.
    Run {
        ticks: u32,
        total: u32,
    },
    // A refusal, and the number of the line that it answers.
    Refused {
        why: Refusal,
        line: u32,
    },
}

impl Line {
    // Writes the line to the front of a buffer, and tells its length.
    // Not by `Display`: numbers have the sheet's own rule, and go into the caller's buffer.
    pub fn write(self, out: &mut [u8]) -> Result<usize, Refusal>
        ensures { Printed result out.old out.new (text_of self) }
    {
        match self {
            Line::System(p) => write_line(out, b"S", &[i64::from(p)]),
            Line::Width(classes) => write_line(out, b"W", &[i64::from(classes)]),
            Line::Put(held) => write_line(out, b"D", &[i64::from(held)]),
            Line::Take(held) => write_line(out, b"X", &[i64::from(held)]),
            Line::Cleared => write_line(out, b"C,cleared", &[]),
            Line::Barred { x, y, lead, period } => write_line(
                out,
                b"C,barred",
                &[
                    i64::from(x),
                    i64::from(y),
                    i64::from(lead),
                    i64::from(period),
                ],
            ),
            Line::Load => write_line(out, b"Z", &[]),
            Line::Tick { x, y } => write_line(out, b"T", &[i64::from(x), i64::from(y)]),
            Line::Run { ticks, total } => write_line(
                out,
                b"L",
                &[i64::from(ticks), i64::from(total)],
            ),
            Line::Refused { why, line } => write_line(
                out,
                b"N",
                &[i64::from(u8::from(why)), i64::from(line)],
            ),
        }
    }
}

// Writes numbers from place `at` on, each behind a comma, and tells the place after them.
// A buffer and a place, as `numerals` takes them: memory is fixed, and the buffer is the caller's.
#[tactic(auto, using(crate::proofs::Wrote::fields_room, crate::proofs::Wrote::wrote_none))]
fn write_fields(out: &mut [u8], at: usize, numbers: &[i64]) -> usize
    requires { at + length (fields numbers.now) ≤ length out.old }
    ensures end { result ≡ at + length (fields numbers.now) }
    ensures after { out.new ≡ overwrite out.old at (fields numbers.now) }
{
    let mut end = at;
    for &x in numbers {
        out[end] = b',';
        end = write_number(out, end + 1, x);
    }
    end
}

// Writes a line: its head, its numbers, and the byte that ends it.
#[tactic(auto, using(crate::proofs::Wrote::length_fields, crate::proofs::Wrote::length_line))]
fn write_line(out: &mut [u8], head: &[u8], numbers: &[i64]) -> Result<usize, Refusal>
    requires fits { length head.now + (most + 2) * length numbers.now < room }
    requires writable { AllByRecursion Writable numbers.now }
    ensures { Printed result out.old out.new (line_of head.now numbers.now) }
{
    if out.len() < ROOM {
        return Err(Refusal::Narrow);
    }
    let at = write_bytes(out, 0, head);
    let end = write_fields(out, at, numbers);
    out[end] = b'\n';
    Ok(end + 1)
}

// Every number that a line here prints is read as itself.
pub fn numbers_are_read(x: i32, n: u32, why: Refusal)
    ensures coordinate { Reads (written x) x }
    ensures count { Reads (written (pos n)) (pos n) }
    ensures number { Reads (written (pos (number_of why))) (pos (number_of why)) }
{
    read_as_written();
}
