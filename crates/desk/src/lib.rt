// The program `fill`, as definitions: the frame program's lines and two more. What answers a line is the crate desk_line.
#![tactic(auto)]

// The latest accepted lower frame: whether there is one, its column counts, and how many columns of each kind it added.
#[derive(Clone, Copy)]
pub struct Latest {
    pub lowered: bool,
    pub main_count: u64,
    pub aux_count: u64,
    pub mains: u64,
    pub auxs: u64,
}
