// The three number systems that are served, and an adapter to the short kind.

#![tactic(auto)]

mod adapter;
mod choice;
mod five;
mod theta;

pub use adapter::AtShort;
pub use five::G5;
pub use theta::{KM, KP, Km, Kp, Minus, Plus, Sign, Theta};
