// Programs that answer lines, on their input, part by part: lines of any length and parts of any length, in constant memory. `line` gathers a line;
// `feed` is what the frame program does between reading and writing.
#![tactic(auto)]

pub mod feed;
pub mod line;
