// The walk, and what is counted along it: document 01, "Readings". Its definitions are the crate walking.
#![tactic(auto)]

pub mod counting;
pub mod ids;
pub mod references;
pub mod rising;
pub mod sizes;
pub mod walk;
