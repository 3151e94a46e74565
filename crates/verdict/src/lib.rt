// The check of a list of digits: whether every element of the ring has an expansion over it.

#![tactic(auto)]

mod bounds;
mod checks;
pub mod recoding;

pub use bounds::{bound, largest, norm_in, norm_limit};
pub use checks::{check, judge};
