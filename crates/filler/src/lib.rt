// Request 1, the new columns of rows: the plan is made once a call, and each row is one loop over it. Its definitions are the crate filling.
#![tactic(auto)]

pub mod calls;
pub mod order;
pub mod plan;
pub mod prepare;
pub mod row;
pub mod run;
