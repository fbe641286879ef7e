// Plans, served one after another from one tally of steps.
#![tactic(auto)]

pub mod desk;
pub mod serving;
pub mod tally;
