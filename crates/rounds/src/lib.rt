// Trails of a map on elements: whether one comes to an earlier element, and where it returns.

#![tactic(auto)]

mod cycles;
mod dynamics;
mod order;
mod trail;

pub use cycles::{Cycle, Orbit};
pub use dynamics::Dynamics;
pub use order::{Ranked, before};
pub use trail::Trail;
