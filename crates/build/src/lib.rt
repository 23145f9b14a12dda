// The inner forms of building, for a circuit that is known to be one: document 01, "Building".
#![tactic(auto)]

pub mod constants;
pub mod several;
pub mod steps;
