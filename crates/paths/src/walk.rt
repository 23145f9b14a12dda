// The in-order walk: left subtree, node, right subtree, repeated along each path. The lent stack holds the nodes whose left subtree is being walked.
ghost use Rattle.std.specs.Prelude.{◌≡◌};
ghost use Rattle.layout.specs.Words.{expression_at};
ghost use Rattle.layout.specs.Tree.{tree};
ghost use Rattle.circuit.specs.Walk.{step_of};
ghost use Rattle.walking.specs.Paths.{walks};
ghost use Rattle.walking.specs.Calls.{walk_call};
ghost use Rattle.walking.specs.Told.{told_count};
ghost use Rattle.paths.specs.Walking.{right_walk, Descending, Descended, Walking, Walked, WalkingAll};

use crate::counting::clear;
use crate::ids::bad_id;
use crate::sizes::walk_length;
use circuit::check::{check, step_at};
use layout::refusal::Refusal;

// Pushes node i and its left lineage: how many stand on the stack then.
fn descend(m: &[u64], stack: &mut [u64], i: u64, depth: u64) -> u64
    requires { Descending m.now stack.old i depth }
    ensures { Descended m.now stack.old stack.new (Rattle.walking.specs.Paths.walk (tree m.now i)) depth result }
{
    let mut node = i;
    let mut top = depth;
    loop {
        let place = top as usize;
        stack[place] = node;
        top += 1;
        let s = step_at(m, node);
        match s {
            None => {
                return top;
            }
            Some((l, _)) => {
                node = l;
            }
        }
    }
}

// After a node its right subtree comes.
fn go_right(m: &[u64], stack: &mut [u64], i: u64, depth: u64) -> u64
    requires { Descending m.now stack.old i depth }
    ensures { Descended m.now stack.old stack.new (right_walk m.now (step_of (expression_at m.now i))) depth result }
{
    let s = step_at(m, i);
    match s {
        None => depth,
        Some((_, r)) => descend(m, stack, r, depth),
    }
}

// Walks from one root, into the list from a place on: the place after.
fn walk_root(m: &[u64], list: &mut [u64], stack: &mut [u64], root: u64, start: u64) -> u64
    requires { Walking m.now list.old stack.old root start }
    ensures { Walked m.now list.old stack.old list.new stack.new (Rattle.walking.specs.Paths.walk (tree m.now root)) start result }
{
    let mut at = start;
    let mut depth = descend(m, stack, root, 0);
    while depth > 0 {
        let top = (depth - 1) as usize;
        let i = stack[top];
        let place = at as usize;
        list[place] = i;
        at += 1;
        depth = go_right(m, stack, i, depth - 1);
    }
    at
}

fn walk_roots(m: &[u64], roots: &[u64], list: &mut [u64], stack: &mut [u64]) -> u64
    requires { WalkingAll m.now roots.now list.old stack.old }
    ensures { Walked m.now list.old stack.old list.new stack.new (walks m.now roots.now) 0 result }
{
    let mut at: u64 = 0;
    for &root in roots {
        at = walk_root(m, list, stack, root, at);
    }
    at
}

// The walk from each root after the other: how many ids now stand in the list. The stack ends zero up to the used count.
pub fn walk(m: &[u64], roots: &[u64], list: &mut [u64], stack: &mut [u64]) -> Result<u64, Refusal>
    ensures { told_count result (list.new, stack.new) ≡ walk_call m.now roots.now list.old stack.old }
{
    let mut order = [0u64; 4096];
    let mut rank = [0u64; 4096];
    if !check(m, &mut order, &mut rank) {
        return Err(Refusal::NotCircuit);
    }
    if bad_id(m, roots) {
        return Err(Refusal::BadId);
    }
    let room = list.len() as u64;
    if room < walk_length(m, &order, &rank, roots, room + 1) {
        return Err(Refusal::NoRoom);
    }
    let n = m[1];
    if (stack.len() as u64) < n {
        return Err(Refusal::NoRoom);
    }
    let found = walk_roots(m, roots, list, stack);
    clear(stack, n);
    Ok(found)
}
