// The calls of a unit, the rules that they keep, and what holds after every list of them.

#![tactic(auto)]

pub mod agree;
pub mod calls;
pub mod keep;
pub mod shown;
