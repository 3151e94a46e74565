// The first element, by norm, x and y, whose trail does not come to 0.

#![tactic(auto)]

mod first;
mod shells;
mod sieve;

pub use first::{search, tried};
pub use shells::{cleared_to, reach};
pub use sieve::Sieve;
