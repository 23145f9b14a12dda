// The tests of a lowering, one by one: from the circuit, and from tables with an entry for each node.
ghost use Rattle.std.specs.Prelude.{◌≡◌, false, ◌+◌, ◌≤◌, length, ltb};
ghost use Rattle.layout.specs.Lists.{any, up_to};
ghost use Rattle.layout.specs.Words.{used, offset, expression_at};
ghost use Rattle.layout.specs.NotCircuit.{not_circuit};
ghost use Rattle.lowering.specs.Refusals.{at_or_above, input_at_or_above};
ghost use Rattle.lower.specs.Tables.{above_in, is_loose_in, is_over_in};

use crate::choose::is_above;
use circuit::place::{entry, expression_at, node_at};
use layout::node::{Expression, Position};

// The highest path count, and the highest column with one more.
const MOST_PATHS: u64 = 4294967295;

const MOST_COLUMNS: u64 = 65536;

// Whether some root's degree exceeds the target.
pub(crate) fn too_high(degrees: &[u64], target: u64, roots: &[u64]) -> bool
    ensures { result ≡ any (above_in degrees.now target) roots.now }
{
    roots.iter().any(|&i| is_above(degrees, target, i))
}

// Whether node i is loose and lies below the roots.
fn is_loose(m: &[u64], counts: &[u64], i: u64) -> bool
    requires { offset i + 6 ≤ length m.now }
    ensures { result ≡ is_loose_in m.now counts.now i }
{
    entry(counts, i) != 0 && !node_at(m, i).registered
}

// LOOSE: a loose node below a root, or a loose root.
pub(crate) fn any_loose(m: &[u64], counts: &[u64]) -> bool
    requires { not_circuit m.now ≡ false }
    ensures { result ≡ any (is_loose_in m.now counts.now) (up_to (used m.now)) }
{
    for i in 0..m[1] {
        if is_loose(m, counts, i) {
            return true;
        }
    }
    false
}

// Whether node i, of degree above 1, occurs more often than the bound allows.
fn is_over(degrees: &[u64], occurrences: &[u64], i: u64) -> bool
    ensures { result ≡ is_over_in degrees.now occurrences.now i }
{
    is_above(degrees, 1, i) && MOST_PATHS < entry(occurrences, i)
}

// PATHS: the paths from all high nodes to some node of degree above 1 sum over the bound.
pub(crate) fn any_over(degrees: &[u64], occurrences: &[u64], n: u64) -> bool
    ensures { result ≡ any (is_over_in degrees.now occurrences.now) (up_to n) }
{
    for i in 0..n {
        if is_over(degrees, occurrences, i) {
            return true;
        }
    }
    false
}

// An input, of either row, at or above its count.
fn at_or_above(main_count: u64, aux_count: u64, q: Position) -> bool
    ensures { result ≡ at_or_above main_count aux_count q }
{
    match q {
        Position::Main(c) => main_count <= c,
        Position::Aux(c) => aux_count <= c,
        Position::NextMain(c) => main_count <= c,
        Position::NextAux(c) => aux_count <= c,
    }
}

fn input_at_or_above(main_count: u64, aux_count: u64, e: Expression) -> bool
    ensures { result ≡ input_at_or_above main_count aux_count e }
{
    match e {
        Expression::Base(_) => false,
        Expression::Extension(_) => false,
        Expression::Challenge(_) => false,
        Expression::Operation(_, _, _) => false,
        Expression::Input(q) => at_or_above(main_count, aux_count, q),
    }
}

// COLUMNS, its first half: any used node, below a root or not, is such an input.
pub(crate) fn any_at_or_above(m: &[u64], main_count: u64, aux_count: u64) -> bool
    requires { not_circuit m.now ≡ false }
    ensures { result ≡ any (λ i. input_at_or_above main_count aux_count (expression_at m.now i)) (up_to (used m.now)) }
{
    for i in 0..m[1] {
        if input_at_or_above(main_count, aux_count, expression_at(m, i)) {
            return true;
        }
    }
    false
}

// COLUMNS, its second half: a count + M over 65,536. The count may be any word, so nothing is added to it.
pub(crate) fn too_wide(count: u64, more: u64) -> bool
    ensures { result ≡ ltb 65536 (count + more) }
{
    MOST_COLUMNS < count || MOST_COLUMNS - count < more
}
