// Every public call for programs in C and Rust: numbers and slices of words only, and nothing is asked of either. How a call answers is said once,
// in specs/Answers.antt.
#![tactic(auto)]

mod answers;
pub mod circuits;
pub mod fillings;
pub mod leaves;
pub mod lowerings;
pub mod operations;
pub mod readings;
pub mod walks;
