// The search for the cheapest walk within a limit: a label-setting search over a worksheet that it is lent.
#![tactic(auto)]

mod expanding;
mod inside;
mod lent;
mod opening;
pub mod record;
mod running;
mod stepping;
mod tracing;
