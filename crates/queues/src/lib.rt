// The queues: a binary heap for searches of any size, and a sorted row for small ones.
//
// Both are one type over two layouts of its vector. It keeps the trait `Queue` of the crate `queue`, so at one
// capacity they give the same answers to the same calls, and a search may run over either.
#![tactic(auto)]

pub mod bounded;
pub mod heap;
pub mod row;
mod sift;
#[cfg(test)]
mod tests;
