// Document 01, "The frame program", as definitions. What answers a line is the crate frame.
#![tactic(auto)]

use arithmetic::Triple;
use layout::node::Op;

// A frame, its numbers read. A line that is none asks for nothing.
#[derive(Clone, Copy)]
pub enum Request {
    Start(u64),
    Input(u64, u64),
    Challenge(u64),
    Base(u64),
    Extension(Triple),
    Operation(Op, u64, u64),
    Subtract(u64, u64),
    Negate(u64),
    Root(u64),
    Lower(u64, u64, u64),
    Nothing,
}

// How many bytes a frame has, its opcode included, and what it asks for if it has so many.
#[derive(Clone, Copy)]
pub struct Form(pub usize, pub Request);

// A number alone; the number, and if that is 0, an id; the number, and if that is 0, how many of each list. Numbers and no refusals: the definitions
// make a reply of what an outcome tells (`bare`, `id_answer`, `lower_answer`), and its number may be any.
#[derive(Clone, Copy)]
pub enum Reply {
    Bare(u64),
    Id(u64, u64),
    Counts(u64, u64, u64),
}
