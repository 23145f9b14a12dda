// The public calls of building: document 01, "Building".
#![tactic(auto)]

pub mod calls;
pub mod leaves;
