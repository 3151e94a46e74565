// The unit: a number system, an engine and a set of digits, and the seven calls.

#![tactic(auto)]

pub mod parts;
pub mod run;
pub mod unit;
