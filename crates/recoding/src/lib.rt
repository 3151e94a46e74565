// Recoding an element into its expansion.

#![tactic(auto)]

pub mod entry;
pub mod recode;
