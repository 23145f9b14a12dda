// A circuit in lent words: its start, its nodes, whether it is one.
ghost use Rattle.std.specs.Prelude.{◌≡◌, [], ◌∷◌};
ghost use Rattle.layout.specs.NotCircuit.{not_circuit};
ghost use Rattle.layout.specs.Outcomes.{refusal};
ghost use Rattle.layout.specs.Calls.{read_call, used_call, free_call};
ghost use Rattle.abi.specs.Answers.{Answered, Done, as_number, as_node};
ghost use Rattle.abi.specs.Numbers.{start_by_number};

use crate::answers::{node, number};
use circuit::{calls, refusal};
use layout::node::RowKind;
use layout::refusal::Refusal;

// Starts a circuit: kind 1 single-row, 2 dual-row.
#[unsafe(no_mangle)]
pub extern "C" fn atz_start(m: &mut [u64], kind: u64) -> u64
    ensures { Done (start_by_number m.old kind) result m.new }
{
    if kind == 1 {
        return refusal::number(calls::start(m, RowKind::Single));
    }
    if kind == 2 {
        return refusal::number(calls::start(m, RowKind::Dual));
    }
    refusal::number_of(Refusal::NotCircuit)
}

// Whether the words are a circuit: 0, or NOT_CIRCUIT.
#[unsafe(no_mangle)]
pub extern "C" fn atz_is_circuit(m: &[u64]) -> u64
    ensures { result ≡ refusal ((1, not_circuit m.now) ∷ []) }
{
    if !calls::is_circuit(m) {
        return refusal::number_of(Refusal::NotCircuit);
    }
    0
}

// A node: the six words of its place.
#[unsafe(no_mangle)]
pub extern "C" fn atz_read(m: &[u64], id: u64, out: &mut [u64]) -> u64
    ensures { Answered as_node (read_call m.now id) result out.old out.new tt }
{
    node(out, calls::read(m, id))
}

// How many nodes there are.
#[unsafe(no_mangle)]
pub extern "C" fn atz_used(m: &[u64], out: &mut [u64]) -> u64
    ensures { Answered as_number (used_call m.now) result out.old out.new tt }
{
    number(out, calls::used(m))
}

// How many more there is room for.
#[unsafe(no_mangle)]
pub extern "C" fn atz_free(m: &[u64], out: &mut [u64]) -> u64
    ensures { Answered as_number (free_call m.now) result out.old out.new tt }
{
    number(out, calls::free(m))
}
