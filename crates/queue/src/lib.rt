// Priority queues for a label-setting search: what a queue holds, what it is asked, and what any of them
// can be used for. The queues themselves stand in a crate of their own.
//
// `entry` has what a queue holds and the order in which it is handed out, `interface` the trait that every
// queue keeps, and `sort` a use of it that needs no more than the trait.
#![tactic(auto)]

pub mod entry;
pub mod interface;
pub mod sort;
