// A circuit in lent words: the words of a place (place), the test for a constant (constants), the check for NOT_CIRCUIT with its rank (check), the
// numbers of refusals (refusal) and the public calls (calls). What the words say stands in the crate layout.
#![tactic(auto)]

pub mod calls;
pub mod check;
pub mod constants;
pub mod place;
pub mod refusal;
