// A whole sheet, from its first line on.
ghost use Rattle.std.specs.Prelude.{◌≡◌, ℕ, IfOk, List, MatchResult, pos, vec_items};
ghost use Rattle.listing.specs.Lines.{text_of};
ghost use Rattle.unit.specs.Seen.{setting};
ghost use Rattle.residue.specs.Made.{Made};
ghost use Rattle.transcript.specs.Engines.{setting_of};
ghost use Rattle.replies.specs.Sinks.{Given};
ghost use Rattle.transcript.specs.Serving.{Opened};
ghost use Rattle.transcript.specs.Transcript.{Starts, Listing};

use crate::following::{Rest, follow};
use engine::PointEngine;
use listing::Line;
use numbers::{Asks, Coordinate, NumberSystem, Ruled};
use refusals::Refusal;
use replies::asking::{Choice, chosen};
use replies::printing::print;
use replies::sink::Sink;
use replies::text::Text;
use residue::ResidueEngine;
use sheet::cutting::next_line;
use sheet::field::Field;
use sheet::line::System;
use std::alloc::{AllocError, Global};
use systems::{G5, KM, KP};
use unit::unit::Unit;

// The most bytes of a sheet.
const LONGEST: usize = 32768;

// The residue engine that a first line chooses for a system, or the refusal that it gets.
fn engine_for<S: Ruled>(choice: Choice) -> Result<ResidueEngine, Refusal>
    ensures { Made S.ring.t S.ring.n (pos choice.modulus) (pos choice.root) (pos choice.start) result }
{
    ResidueEngine::new(
        i64::from(S::TRACE),
        i64::from(S::NORM),
        choice.modulus.cast_signed(),
        choice.root.cast_signed(),
        choice.start.cast_signed(),
    )
}

// Answers a first line that chooses this system, and the lines behind it.
fn start<S: NumberSystem, K: Sink>(system: S, choice: Choice, rest: Rest, out: &mut K)
where
    S: Drop,
    ensures { (text : List ℕ) × Starts (setting S.ring S.WIDEST S.Kind.LOADING S.Kind.WORKING) choice.modulus choice.root choice.start rest.entry.lines text × Given K.held out.old out.new text }
{
    match engine_for::<S>(choice) {
        Ok(engine) => {
            print(out, Line::System(S::BASE_NORM));
            let mut unit = Unit::new(system, engine);
            follow(&mut unit, rest, out);
        }
        Err(why) => print(out, Line::Refused { why, line: 1 }),
    }
}

// Answers a first line that chooses, and the lines behind it.
fn open<K: Sink>(choice: Choice, rest: Rest, out: &mut K)
    ensures { (text : List ℕ) × Starts (setting_of choice.system) choice.modulus choice.root choice.start rest.entry.lines text × Given K.held out.old out.new text }
{
    match choice.system {
        System::Kp => start(KP, choice, rest, out),
        System::Km => start(KM, choice, rest, out),
        System::G5 => start(G5, choice, rest, out),
    }
}

// What the first line of a sheet chooses, and the lines behind it; or the line of a listing that refuses the sheet.
fn first_line<'a>(sheet: &'a [u8]) -> Result<(Choice, Rest<'a>), Line>
    ensures { MatchResult result (λ q. Opened sheet.now q.0 q.1.lines) (λ l. Listing sheet.now (text_of l)) }
{
    if sheet.len() > LONGEST {
        return Err(Line::Refused {
            why: Refusal::Sheet,
            line: 0,
        });
    }
    let refused = Line::Refused {
        why: Refusal::Line,
        line: 1,
    };
    let first = next_line(Field::whole(sheet)).ok().flatten();
    let (line, lines) = first.ok_or(refused)?;
    let choice = chosen(line).ok_or(refused)?;
    Ok((choice, Rest { lines }))
}

// Prints the listing of a sheet.
pub fn transcribe<K: Sink>(sheet: &[u8], out: &mut K)
    ensures { (text : List ℕ) × Listing sheet.now text × Given K.held out.old out.new text }
{
    match first_line(sheet) {
        Ok((choice, rest)) => open(choice, rest, out),
        Err(refused) => print(out, refused),
    }
}

// The listing of a sheet in memory of its own, or that there is not enough.
pub fn listing_of(heap: Global, sheet: &[u8]) -> Result<Vec<u8>, AllocError>
    ensures { IfOk result (λ v. Listing sheet.now (vec_items v)) }
{
    let mut listing = Text::new(heap);
    transcribe(sheet, &mut listing);
    listing.into_bytes()
}
