// The program `fill`, with memory that is kept from line to line: words of a line and of an answer (words), challenges (given), a row (row), one line
// (calls), the lines of a part of the input (feed).
#![tactic(auto)]

pub mod calls;
pub mod feed;
pub mod given;
pub mod row;
pub mod words;
