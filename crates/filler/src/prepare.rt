// What is made once a call: the plan, with each expression's entry, and the entries of constants and challenges.
ghost use Rattle.std.specs.Prelude.{◌≡◌, false, ℕ, ◌+◌, ◌*◌, ◌<◌, ◌≤◌, length};
ghost use Rattle.layout.specs.NotCircuit.{not_circuit};
ghost use Rattle.circuit.specs.Rank.{at};
ghost use Rattle.filler.specs.Running.{Roomy};
ghost use Rattle.filler.specs.Planning.{fixed_one, Ready};
ghost use Rattle.filler.specs.Rowing.{Prepared};
ghost use Rattle.filler.specs.Preparing.{Preparing, Resolved};

use crate::order::order_targets;
use crate::plan::{Shape, make_plan};
use circuit::place::expression_at;
use layout::node::Expression;
use read::value::{aux_at, keep};

// A constant's or a challenge's entry. A challenge beyond the list is not read by any row, and has the entry zero.
fn fix_node(e: Expression, i: u64, challenges: &[u64], words: &mut [u64], triples: &mut [u64])
    requires { (i < length words.old) × (3 * i + 2 < length triples.old) }
    ensures { (words.new, triples.new) ≡ fixed_one challenges.now i e (words.old, triples.old) }
{
    match e {
        Expression::Base(w) => {
            let node = i as usize;
            words[node] = w;
        }
        Expression::Extension(x) => keep(triples, i, x),
        Expression::Challenge(k) => keep(triples, i, aux_at(challenges, k)),
        Expression::Operation(_, _, _) => {}
        Expression::Input(_) => {}
    }
}

// All of them: no row writes these entries.
pub(crate) fn fix(m: &[u64], challenges: &[u64], words: &mut [u64], triples: &mut [u64])
    requires { (not_circuit m.now ≡ false) × Roomy words.old triples.old }
    ensures { Ready m.now challenges.now (words.new, triples.new) }
{
    for i in 0..m[1] {
        fix_node(expression_at(m, i), i, challenges, words, triples);
    }
}

// Each expression's id becomes the entry in which its value stands.
fn resolve(targets: &mut [u64], alias: &[u64], items: u64)
    requires { (items ≤ length targets.old) × ((k : ℕ) → k < items → at targets.old k < length alias.now) }
    ensures { Resolved targets.old alias.now targets.new items }
{
    for t in &mut targets[..items as usize] {
        *t = alias[*t as usize];
    }
}

// The plan: how many instructions it has.
pub(crate) fn prepare(
    m: &[u64],
    mains: &[u64],
    auxs: &[u64],
    challenges: &[u64],
    bases: &[u64],
    s: Shape,
    targets: &mut [u64],
    plan: &mut [u64],
) -> u64
    requires { Preparing s m.now mains.now auxs.now challenges.now targets.old bases.now plan.old }
    ensures { Prepared s m.now mains.now auxs.now challenges.now targets.new bases.now plan.new result }
{
    let mut order = [0u64; 4096];
    let mut rank = [0u64; 4096];
    let done = order_targets(m, targets, challenges, s, &mut order, &mut rank);
    let mut alias = [0u64; 4096];
    let many = make_plan(
        m, &order, &rank, bases, targets, challenges, s, done, &mut alias, plan,
    );
    resolve(targets, &alias, s.items);
    many
}
