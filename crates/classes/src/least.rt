// Of each class number, the least id that has it: kept as the id and one more, 0 for none.
ghost use Rattle.std.specs.Prelude.{◌≡◌, false, ◌+◌, ◌<◌, ◌≤◌, length};
ghost use Rattle.layout.specs.Words.{used, offset, registered};
ghost use Rattle.layout.specs.NotCircuit.{not_circuit};
ghost use Rattle.classes.specs.Least.{noted, Firsts, Inside, Lowered};

use crate::numbers::blank;
use circuit::place::{entry, node_at};

// A least id for each of 4,096 numbers, which begin with 1.
pub const LEAST: usize = 4097;

// i is the least id of number v, unless it has one.
pub(crate) fn note(least: &mut [u64], v: u64, i: u64)
    requires { (v < length least.old) × (i < 4096) }
    ensures { least.new ≡ noted least.old v i }
{
    let k = v as usize;
    if least[k] == 0 {
        least[k] = i + 1;
    }
}

// Registered, and not loose.
fn is_registered(m: &[u64], i: u64) -> bool
    requires { offset i + 6 ≤ length m.now }
    ensures { result ≡ registered m.now i }
{
    let node = node_at(m, i);
    node.registered
}

// The least registered id of each number.
pub(crate) fn list_registered(m: &[u64], numbers: &[u64], least: &mut [u64])
    requires { (not_circuit m.now ≡ false) × Inside numbers.now least.old (used m.now) }
    ensures { Firsts (registered m.now) numbers.now least.new (used m.now) }
{
    blank(least, least.len());
    for i in 0..m[1] {
        if is_registered(m, i) {
            note(least, entry(numbers, i), i);
        }
    }
}

// Each number becomes the least id that has it.
pub(crate) fn least_ids(class: &mut [u64], least: &mut [u64], n: u64)
    requires { Inside class.old least.old n }
    ensures { Lowered class.old class.new n }
{
    blank(least, least.len());
    for i in 0..n {
        let v = class[i as usize];
        note(least, v, i);
        class[i as usize] = least[v as usize] - 1;
    }
}
