// The reference figures: one small network, and what is proved to come out on it.
#![tactic(auto)]

pub mod network_a;
pub mod theorems;
