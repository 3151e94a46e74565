// A whole sheet and its whole listing.

#![tactic(auto)]

mod answering;
mod following;
mod opening;
mod running;

pub use opening::{listing_of, transcribe};
