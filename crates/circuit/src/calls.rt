// The public calls of this layer. They ask nothing of the words that are lent: all are checked, each time.
ghost use Rattle.std.specs.Prelude.{◌≡◌, not};
ghost use Rattle.layout.specs.Words.{row_word};
ghost use Rattle.layout.specs.NotCircuit.{not_circuit};
ghost use Rattle.layout.specs.Calls.{start_call, read_call, used_call, free_call};
ghost use Rattle.layout.specs.Answers.{told_start, told_node, told_count};

use crate::check::{check, limit_of};
use crate::place::{HEADER, node_at};
use layout::node::{Node, RowKind};
use layout::refusal::Refusal;

// The word of a row kind is its discriminant.
fn row_word(kind: RowKind) -> u64
    ensures { result ≡ row_word kind }
{
    kind as u64
}

// Starts a circuit in the lent words: single-row or dual-row, and no node used.
pub fn start(m: &mut [u64], kind: RowKind) -> Result<(), Refusal>
    ensures { told_start result m.new ≡ start_call m.old kind }
{
    if m.len() < HEADER {
        return Err(Refusal::NotCircuit);
    }
    m[0] = row_word(kind);
    m[1] = 0;
    Ok(())
}

// Whether the words are a circuit.
pub fn is_circuit(m: &[u64]) -> bool
    ensures { result ≡ not (not_circuit m.now) }
{
    let mut order = [0u64; 4096];
    let mut rank = [0u64; 4096];
    check(m, &mut order, &mut rank)
}

// A node by its id: its expression, registered or loose, its reference count.
pub fn read(m: &[u64], i: u64) -> Result<Node, Refusal>
    ensures { told_node result ≡ read_call m.now i }
{
    if !is_circuit(m) {
        return Err(Refusal::NotCircuit);
    }
    if m[1] <= i {
        return Err(Refusal::BadId);
    }
    Ok(node_at(m, i))
}

// How many nodes there are.
pub fn used(m: &[u64]) -> Result<u64, Refusal>
    ensures { told_count result ≡ used_call m.now }
{
    if !is_circuit(m) {
        return Err(Refusal::NotCircuit);
    }
    Ok(m[1])
}

// How many more there is room for.
pub fn free(m: &[u64]) -> Result<u64, Refusal>
    ensures { told_count result ≡ free_call m.now }
{
    if !is_circuit(m) {
        return Err(Refusal::NotCircuit);
    }
    Ok(limit_of(m) - m[1])
}
