// The tests of the calls that fill new columns, before a word is written: TABLE (rows), BAD_WORD (given), and NOT_LOWERED (form, reach, lowered). Their
// definitions are the crate filling.
#![tactic(auto)]

pub mod form;
pub mod given;
pub mod lowered;
pub mod reach;
pub mod rows;
