ghost use Rattle.std.specs.Prelude.{◌≤◌};

pub mod calls;

// A width from 1 to 8: no system has a wider one, since its base has at least norm 2 and it serves at most 128 classes.
#[derive(Clone, Copy, Debug, PartialEq, Eq)]
pub struct Width {
    places: u32,
    ghost some: { 1 ≤ places },
    ghost most: { places ≤ 8 },
}
