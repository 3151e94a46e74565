// Sheets: their lines, the fields of a line, and the numbers of the fields.

#![tactic(auto)]

pub mod cutting;
pub mod field;
pub mod line;
pub mod number;
pub mod reading;
