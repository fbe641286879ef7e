// Reach: the least cost and the least delay to a goal.
#![tactic(auto)]

pub mod tables;
