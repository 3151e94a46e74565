ghost use Rattle.numbers.specs.Meaning.{meaning};
ghost use Rattle.digits.specs.Digits.{elems};
ghost use Rattle.recoding.specs.Outcome.{Outcome};

use crate::entry::{Entry, Unexpanded};
use digits::numeration::Numeration;
use numbers::{Asks, Coordinate, Element};

// Recodes z step by step into the entries, and answers how many digits its expansion has.
// There are as many steps at most as there are entries: that bounds the loop, whatever the digits.
pub fn expand<C: Coordinate, S: Asks<C> + Asks<i32>>(
    numeration: Numeration<S>,
    z: Element<C>,
    entries: &mut [Entry<C>],
) -> Result<usize, Unexpanded>
    ensures { Outcome C.value S.ring C.WORKING numeration.entry.width.places (elems numeration.entry.digits.now) (meaning C.value z) entries.old entries.new result }
{
    if !numeration.all_odd() {
        return Err(Unexpanded::Even);
    }
    let mut rest = z;
    for (k, entry) in entries.iter_mut().enumerate() {
        if rest.is_zero() {
            return Ok(k);
        }
        let (digit, remainder) = numeration.step(rest).ok_or(Unexpanded::Stuck(k))?;
        *entry = Entry { digit, remainder };
        rest = remainder;
    }
    if rest.is_zero() {
        Ok(entries.len())
    } else {
        Err(Unexpanded::Spent)
    }
}
