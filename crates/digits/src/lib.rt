// Digits, their widths, verdicts, and the step that recoding takes.

#![tactic(auto)]

pub mod digit;
pub mod numeration;
pub mod residues;
pub mod verdict;
pub mod width;
