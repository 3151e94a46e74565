// Numerals: numbers as sheets and listings write them.

#![tactic(auto)]

ghost use Rattle.std.specs.Prelude.{◌≡◌, ℕ, ◌+◌, ◌^◌, ◌<◌, ◌≤◌, length, ℤ, pos, neg_ℤ, List, Decides, MatchOption, slice_index};
ghost use Rattle.numerals.specs.Numeral.{most, hex_value, Counts, Reads, NoComma, hex, hex_digit, written, ReadAsWritten, OneNumber, CountsAreRead};
ghost use Rattle.numerals.specs.Overwrite.{overwrite};

// The most digits of a numeral.
const MOST_DIGITS: usize = 12;

// The value of a digit.
fn digit(b: u8) -> Option<u8>
    ensures { MatchOption result (16 ≤ hex_value b) (λ d. (d < 16) × (d ≡ hex_value b)) }
{
    match b {
        b'0'..=b'9' => Some(b - b'0'),
        b'a'..=b'f' => Some(b - b'a' + 10),
        _ => None,
    }
}

// Whether digits have a needless zero in front.
fn needless_zero(bs: &[u8]) -> bool
    ensures { Decides result ((1 < length bs.now) × (hex_value (slice_index bs.now 0) ≡ 0)) }
{
    matches!(bs, [b'0', _, ..])
}

// The number that the bytes denote, with no minus allowed.
pub fn natural(bs: &[u8]) -> Option<u64>
    ensures { MatchOption result ((n : ℕ) → Counts bs.now n → ⊥) (λ n. Counts bs.now n) }
{
    if bs.is_empty() || bs.len() > MOST_DIGITS || needless_zero(bs) {
        return None;
    }
    let mut n = 0u64;
    for b in bs {
        n = n * 16 + u64::from(digit(*b)?);
    }
    Some(n)
}

// The number that a minus in front makes of n. There is none before 0.
fn opposite(n: u64) -> Option<i64>
    requires { n < 16 ^ most }
    ensures { MatchOption result (n ≡ 0) (λ z. (0 < n) × (z ≡ neg_ℤ (pos n))) }
{
    if n == 0 { None } else { Some(-(n as i64)) }
}

// The number that the bytes denote.
pub fn integer(bs: &[u8]) -> Option<i64>
    ensures { MatchOption result ((z : ℤ) → Reads bs.now z → ⊥) (λ z. Reads bs.now z) }
{
    match bs {
        [b'-', rest @ ..] => opposite(natural(rest)?),
        _ => Some(natural(bs)? as i64),
    }
}

// A type of numbers that bytes may denote.
pub trait Numeral: Copy {
    ghost denotes: { List ℕ → Self → Type 0 };

    // A proof that bytes denote a number is like any other.
    ghost once: { (bs : List ℕ) (x : Self) → IsProp (denotes bs x) };

    // The number that the bytes denote.
    fn read(bs: &[u8]) -> Option<Self>
        ensures { MatchOption result ((x : Self) → denotes bs.now x → ⊥) (λ x. denotes bs.now x) };

    // A comma parts numbers.
    ghost apart: { (bs : List ℕ) (x : Self) → denotes bs x → NoComma bs };
}

// Numbers with no minus.
impl Numeral for u64 {
    ghost use Rattle.numerals.specs.Laws.{counts_once, counts_apart};

    ghost denotes = { Counts };

    ghost once = { counts_once };

    ghost apart = { counts_apart };

    fn read(bs: &[u8]) -> Option<u64> {
        natural(bs)
    }
}

// Numbers with a minus allowed.
impl Numeral for i64 {
    ghost use Rattle.numerals.specs.Laws.{reads_once, reads_apart};

    ghost denotes = { Reads };

    ghost once = { reads_once };

    ghost apart = { reads_apart };

    fn read(bs: &[u8]) -> Option<i64> {
        integer(bs)
    }
}

// The letter of a digit.
fn letter(d: u8) -> u8
    requires { d < 16 }
    ensures { result ≡ hex_digit d }
{
    if d < 10 { b'0' + d } else { b'a' + (d - 10) }
}

// The functions that write take the caller's buffer and a place in it: memory is fixed, and of a buffer that a struct holds nothing is known after a call.

// Writes the digits of n from place `at` on, and tells the place after them.
fn write_digits(out: &mut [u8], at: usize, n: u64) -> usize
    requires { at + length (hex n) ≤ length out.old }
    ensures end { result ≡ at + length (hex n) }
    ensures after { out.new ≡ overwrite out.old at (hex n) }
{
    if n < 16 {
        out[at] = letter(n as u8);
        return at + 1;
    }
    let end = write_digits(out, at, n / 16);
    out[end] = letter((n % 16) as u8);
    end + 1
}

// Writes bytes from place `at` on, and tells the place after them.
pub fn write_bytes(out: &mut [u8], at: usize, text: &[u8]) -> usize
    requires { at + length text.now ≤ length out.old }
    ensures end { result ≡ at + length text.now }
    ensures after { out.new ≡ overwrite out.old at text.now }
{
    let end = at + text.len();
    out[at..end].copy_from_slice(text);
    end
}

// Writes a number from place `at` on, and tells the place after it.
pub fn write_number(out: &mut [u8], at: usize, x: i64) -> usize
    requires { at + length (written x) ≤ length out.old }
    ensures end { result ≡ at + length (written x) }
    ensures after { out.new ≡ overwrite out.old at (written x) }
{
    let start = if x < 0 {
        write_bytes(out, at, b"-")
    } else {
        at
    };
    write_digits(out, start, x.unsigned_abs())
}

// Every number that needs no more digits than a numeral may have is read as it is written.
pub fn read_as_written()
    ensures { ReadAsWritten }
{}

// Bytes denote at most one number.
pub fn one_number()
    ensures { OneNumber }
{}

// A number read with no minus allowed is the number that the bytes denote.
pub fn counts_are_read()
    ensures { CountsAreRead }
{}
