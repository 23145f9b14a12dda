// Readings of a circuit: document 01, "Readings". Its definitions are the crate reading.
#![tactic(auto)]

pub mod base_test;
pub mod constants;
pub mod degree;
pub mod step;
pub mod table;
pub mod value;
pub mod visible;
