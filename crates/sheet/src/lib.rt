// Sheets: a network, its legs and plans, read from text and written as text.
#![tactic(auto)]

pub mod advice;
pub mod check;
mod entries;
pub mod reader;
mod text;
mod words;
pub mod writing;
