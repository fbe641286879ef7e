// The plans of a sheet, served in their order and answered by lines of text.
#![tactic(auto)]

pub mod answers;
pub mod lines;
