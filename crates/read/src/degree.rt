// Degrees, as document 01 has them: add the larger, multiply the sum, or -1 if either is -1. Inside they are one higher, so that -1 is 0.
ghost use Rattle.std.specs.Prelude.{◌≡◌, ◌&&◌, ltb, eqb, ◌≤◌, min, max};
ghost use mathlib.Core.List.{map, foldr};
ghost use Rattle.layout.specs.Words.{used};
ghost use Rattle.circuit.specs.Rank.{at};
ghost use Rattle.read.specs.Tables.{Filled, Right, Told, Roomy, Asked, AllAsked, itself};
ghost use Rattle.layout.specs.Lists.{any, up_to};
ghost use Rattle.reading.specs.Readings.{signed};
ghost use Rattle.reading.specs.Calls.{degree_call, highest_call};
ghost use Rattle.reading.specs.Answers.{told_degree};
ghost use Rattle.read.specs.Passes.{Ordered, Joinable};
ghost use Rattle.read.specs.Rooted.{Rooted};
ghost use Rattle.read.specs.Degrees.{over_at, Counted, Rows, top, degree_to, degree_entry, degree_start, degree_join};

use crate::step::{UNKNOWN, operands_of, step_at};
use circuit::check::check;
use circuit::place::expression_at;
use layout::node::{Expression, Op};
use layout::refusal::Refusal;
use paths::counting::count_paths;
use paths::ids::bad_id;

// One higher than the least degree over the bound, 2,147,483,647: a higher one is not told apart from it.
const TOP: u64 = 2147483649;

fn degree_over(o: Op, a: u64, b: u64) -> u64
    ensures { result ≡ degree_join o a b }
{
    match o {
        Op::Add => a.max(b).min(TOP),
        Op::Multiply => {
            if a == 0 {
                return 0;
            }
            if b == 0 {
                return 0;
            }
            (a.min(TOP) - 1 + b.min(TOP)).min(TOP)
        }
    }
}

// What the table starts with: a zero constant -1, other constants and challenges 0, input 1. A zero constant is a base constant.
fn leaf_degree(e: Expression) -> u64
    ensures { result ≡ degree_entry e }
{
    match e {
        Expression::Base(w) => {
            if w == 0 {
                return 0;
            }
            1
        }
        Expression::Extension(_) => 1,
        Expression::Challenge(_) => 1,
        Expression::Operation(_, _, _) => UNKNOWN,
        Expression::Input(_) => 2,
    }
}

fn leaf_degrees(m: &[u64], table: &mut [u64])
    requires { Roomy 1 m.now table.old }
    ensures { Filled (used m.now) (at table.new) (degree_start m.now) }
{
    for i in 0..m[1] {
        table[i as usize] = leaf_degree(expression_at(m, i));
    }
}

// The degree of node i, worked out once: the rank falls along operands, and the table holds what was found.
fn degree_of(m: &[u64], rank: &[u64], table: &mut [u64], i: u64) -> u64
    requires { Asked 1 m.now rank.now table.old i }
    ensures { Right itself m.now (at table.old) (degree_to m.now) → Told itself m.now (at table.old) (at table.new) (degree_to m.now) i result }
{
    let node = i as usize;
    let known = table[node];
    let s = step_at(m, i, known);
    match s {
        None => known,
        Some((o, l, r)) => {
            let a = degree_of(m, rank, table, l);
            let b = degree_of(m, rank, table, r);
            let d = degree_over(o, a, b);
            table[node] = d;
            d
        }
    }
}

// The degree of each node, none higher than what is told apart; by ascending ids, so that in a grown circuit each node's operands are known.
pub(crate) fn degrees(m: &[u64], rank: &[u64], table: &mut [u64])
    requires { AllAsked 1 m.now rank.now table.old }
    ensures { Filled (used m.now) (at table.new) (degree_to m.now) }
{
    leaf_degrees(m, table);
    for i in 0..m[1] {
        degree_of(m, rank, table, i);
    }
}

// The degree of node i, from its operands'.
fn degree_at(m: &[u64], table: &[u64], i: u64) -> u64
    requires { Joinable (degree_to m.now) m.now table.now i }
    ensures { result ≡ degree_to m.now i }
{
    let e = expression_at(m, i);
    let s = operands_of(e);
    match s {
        None => leaf_degree(e),
        Some((o, l, r)) => {
            let left = l as usize;
            let right = r as usize;
            degree_over(o, table[left], table[right])
        }
    }
}

// The same of each node in one pass up the order, for lowering, which asks again after each substitution. The rank is not read: it says why the order serves.
pub fn degrees_along(m: &[u64], order: &[u64], rank: &[u64], table: &mut [u64])
    requires { Ordered m.now order.now rank.now table.old }
    ensures { Filled (used m.now) (at table.new) (degree_to m.now) }
{
    for &i in &order[..m[1] as usize] {
        table[i as usize] = degree_at(m, table, i);
    }
}

// A degree from the number one higher.
fn signed(d: u64) -> i64
    requires { d ≤ top }
    ensures { result ≡ signed d }
{
    if d == 0 {
        return -1;
    }
    (d - 1) as i64
}

// A node below the roots, which is one that has a path count, and its degree is over the bound.
fn is_over(count: u64, d: u64) -> bool
    ensures { result ≡ (ltb 0 count && eqb d top) }
{
    count != 0 && d == TOP
}

fn any_over(m: &[u64], counts: &[u64], table: &[u64]) -> bool
    requires { Counted m.now counts.now table.now }
    ensures { result ≡ any (over_at counts.now table.now) (up_to (used m.now)) }
{
    for i in 0..m[1] {
        if is_over(counts[i as usize], table[i as usize]) {
            return true;
        }
    }
    false
}

// The highest entry of a list of roots; of no roots, 0.
fn highest_entry(roots: &[u64], table: &[u64]) -> u64
    requires { Rows roots.now table.now }
    ensures { result ≡ foldr max 0 (map (at table.now) roots.now) }
{
    let mut highest: u64 = 0;
    for &i in roots {
        highest = highest.max(table[i as usize]);
    }
    highest
}

fn highest_of(m: &[u64], order: &[u64], rank: &[u64], roots: &[u64]) -> Result<i64, Refusal>
    requires { Rooted m.now order.now rank.now roots.now }
    ensures { told_degree result ≡ highest_call m.now roots.now }
{
    let mut counts = [0u64; 4096];
    count_paths(m, order, rank, roots, &mut counts);
    let mut table = [0u64; 4096];
    degrees(m, rank, &mut table);
    if any_over(m, &counts, &table) {
        return Err(Refusal::Degree);
    }
    Ok(signed(highest_entry(roots, &table)))
}

// The highest degree of a list of roots; of no roots, -1.
pub fn highest(m: &[u64], roots: &[u64]) -> Result<i64, Refusal>
    ensures { told_degree result ≡ highest_call m.now roots.now }
{
    let mut order = [0u64; 4096];
    let mut rank = [0u64; 4096];
    if !check(m, &mut order, &mut rank) {
        return Err(Refusal::NotCircuit);
    }
    if bad_id(m, roots) {
        return Err(Refusal::BadId);
    }
    highest_of(m, &order, &rank, roots)
}

// The degree of a node; the zero constant has -1.
pub fn degree(m: &[u64], i: u64) -> Result<i64, Refusal>
    ensures { told_degree result ≡ degree_call m.now i }
{
    let roots = [i];
    highest(m, &roots)
}
