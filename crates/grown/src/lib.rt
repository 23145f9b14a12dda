// Circuits grown by the calls: what stays true of them, and what lowering promises about them (demand 3). Statements and proofs alone.
#![tactic(auto)]

// The two kinds of columns that a lowering adds to.
#[derive(Clone, Copy)]
pub enum Table {
    Main,
    Aux,
}
