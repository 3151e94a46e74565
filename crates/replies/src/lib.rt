// What a line of a sheet asks for, the line of a listing that replies, and what a listing is written to.

#![tactic(auto)]

pub mod asking;
pub mod printing;
pub mod sink;
pub mod text;
