// Structural classes: each node's least id of equal structure.
#![tactic(auto)]

pub mod calls;
pub mod find;
pub mod least;
pub mod numbers;
pub mod table;
