// The domain: legs between sites, the network that they make, plans over it, tariffs, estimates, and why a call is refused.
#![tactic(auto)]

pub mod checks;
pub mod estimates;
pub mod legs;
pub mod limits;
pub mod plans;
pub mod refusals;
pub mod tariffs;
