// Lowering: document 01, "Lowering". Its definitions are the crate lowering's.
#![tactic(auto)]

pub mod calls;
pub mod choose;
pub mod next;
pub mod redirect;
pub mod refuse;
pub mod substitute;
pub mod tests;
