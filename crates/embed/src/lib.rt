// The planner for programs in other languages: functions on numbers, slices and plain records, under their C names.
#![tactic(auto)]

pub mod checking;
mod laying;
pub mod reporting;
pub mod serving;
