// The frame language: document 01, "The frame program". From a line's digits to numbers (digits), from those to what it asks for (request), what
// that does and is answered (respond, with the roots' words in roots), and the answer's digits (reply). `calls::frame` is all of it.
#![tactic(auto)]

pub mod calls;
pub mod digits;
pub mod reply;
pub mod request;
pub mod respond;
pub mod roots;
