// The worksheet of a search: its records, what opening a search and each of its steps make of them, and what that finds.
#![tactic(auto)]

pub mod records;
pub mod theorems;
