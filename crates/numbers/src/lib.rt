// Elements with coordinates of two kinds, and what a number system answers about them.

#![tactic(auto)]

mod elements;
mod kinds;
mod norms;
mod rules;

pub use elements::Element;
pub use kinds::Coordinate;
pub use rules::{Asks, NumberSystem, Ruled};
