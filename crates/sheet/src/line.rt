use crate::number::Number;

// The number systems that a sheet may name.
#[derive(Clone, Copy, Debug, PartialEq, Eq)]
pub enum System {
    Kp,
    Km,
    G5,
}

// A line of a sheet, with its number fields.
#[derive(Clone, Copy, Debug, PartialEq, Eq)]
pub enum Line<'a> {
    // The system, and the modulus, the root and the start of its residue engine.
    System {
        system: System,
        modulus: Number<'a, u64>,
        root: Number<'a, u64>,
        start: Number<'a, u64>,
    },
    Width(Number<'a, u64>),
    Put(Number<'a, i64>, Number<'a, i64>),
    Take(Number<'a, i64>, Number<'a, i64>),
    Check,
    Load(Number<'a, i64>, Number<'a, i64>),
}
