// The same answers as the crate frame's, with class tables that are kept from line to line: a circuit that is known to be one is not checked and
// sorted again for each line. Building (nodes), what a request does (respond), and the line (calls).
#![tactic(auto)]

pub mod calls;
pub mod nodes;
pub mod respond;
