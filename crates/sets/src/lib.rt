// Sets of digits: what is held, how it changes, and when it is full.

#![tactic(auto)]

pub mod classes;
pub mod table;
