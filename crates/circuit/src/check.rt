// The check for NOT_CIRCUIT, of any words: it refuses exactly where the definition does, and hands on the rank.
ghost use Rattle.std.specs.Prelude.{◌≡◌, false, ◌+◌, ◌<◌, ◌≤◌, length};
ghost use Rattle.layout.specs.Lists.{any, up_to};
ghost use Rattle.layout.specs.Words.{used, limit, offset, expression_at, is_next};
ghost use Rattle.layout.specs.NotCircuit.{bad_row, bad_index, bad_word, bad_words, bad_expression, bad_node, bad_header, not_circuit};
ghost use Rattle.circuit.specs.Rank.{Sorted, Checked};
ghost use Rattle.circuit.specs.Walk.{step_of, Unfinished, Walkable, Visiting, Visited, Walked, Placing, Placed, Ordered};

use crate::place::{HEADER, PLACE, column_of, expression_at};
use arithmetic::Triple;
use field::base::P;
use field::extension::unlifts;
use layout::node::{Expression, Position};

const MOST_NODES: usize = 4096;

const LAST_INDEX: u64 = 65535;

// How many nodes there is room for: the lent places, at most 4,096.
pub fn limit_of(m: &[u64]) -> u64
    ensures { result ≡ limit m.now }
{
    if m.len() < HEADER {
        return 0;
    }
    let places = (m.len() - HEADER) / PLACE;
    places.min(MOST_NODES) as u64
}

// No words for the row kind and the used count, unknown row kind, or more nodes than there is room for.
pub(crate) fn bad_header(m: &[u64]) -> bool
    ensures { result ≡ bad_header m.now }
{
    if m.len() < HEADER {
        return true;
    }
    let row = m[0];
    if row != 1 {
        if row != 2 {
            return true;
        }
    }
    limit_of(m) < m[1]
}

// Whether an input is of the next row.
pub(crate) fn is_next(q: Position) -> bool
    ensures { result ≡ is_next q }
{
    match q {
        Position::Main(_) => false,
        Position::Aux(_) => false,
        Position::NextMain(_) => true,
        Position::NextAux(_) => true,
    }
}

// An input of the other row kind.
pub fn bad_row(m: &[u64], q: Position) -> bool
    requires { 2 ≤ length m.now }
    ensures { result ≡ bad_row m.now q }
{
    if is_next(q) {
        return m[0] != 2;
    }
    false
}

// A column or challenge over 65,535.
pub fn bad_index(k: u64) -> bool
    ensures { result ≡ bad_index k }
{
    LAST_INDEX < k
}

// A word at or above p.
pub fn bad_word(w: u64) -> bool
    ensures { result ≡ bad_word w }
{
    P <= w
}

// A triple with such a word.
pub fn bad_words(x: Triple) -> bool
    ensures { result ≡ bad_words x }
{
    if bad_word(x.c0) {
        return true;
    }
    if bad_word(x.c1) {
        return true;
    }
    bad_word(x.c2)
}

// What an expression has wrong, where it is a node's.
pub(crate) fn bad_expression(m: &[u64], e: Expression) -> bool
    requires { 2 ≤ length m.now }
    ensures { result ≡ bad_expression m.now e }
{
    match e {
        Expression::Base(w) => bad_word(w),
        Expression::Extension(x) => {
            if bad_words(x) {
                return true;
            }
            unlifts(x)
        }
        Expression::Challenge(k) => bad_index(k),
        Expression::Operation(_, l, r) => {
            let n = m[1];
            if n <= l {
                return true;
            }
            n <= r
        }
        Expression::Input(q) => {
            if bad_index(column_of(q)) {
                return true;
            }
            bad_row(m, q)
        }
    }
}

// Unknown kind or mark, or a bad expression.
fn bad_node(m: &[u64], i: u64) -> bool
    requires { offset i + 6 ≤ length m.now }
    ensures { result ≡ bad_node m.now i }
{
    let at = HEADER + PLACE * (i as usize);
    if m[at] > 8 {
        return true;
    }
    if m[at + 4] > 1 {
        return true;
    }
    bad_expression(m, expression_at(m, i))
}

fn any_bad(m: &[u64]) -> bool
    requires { bad_header m.now ≡ false }
    ensures { result ≡ any (bad_node m.now) (up_to (used m.now)) }
{
    for i in 0..m[1] {
        if bad_node(m, i) {
            return true;
        }
    }
    false
}

// The two operands of an operation: where the walk goes on from a node.
fn step_of(e: Expression) -> Option<(u64, u64)>
    ensures { result ≡ step_of e }
{
    match e {
        Expression::Base(_) => None,
        Expression::Extension(_) => None,
        Expression::Challenge(_) => None,
        Expression::Operation(_, l, r) => Some((l, r)),
        Expression::Input(_) => None,
    }
}

// The operands of node i, if it is an operation.
pub fn step_at(m: &[u64], i: u64) -> Option<(u64, u64)>
    requires { offset i + 6 ≤ length m.now }
    ensures { result ≡ step_of (expression_at m.now i) }
{
    step_of(expression_at(m, i))
}

// Finishes node i, after all below it, each once: a node whose rank is not below the used count is not finished. `done` are finished so far,
// and the answer is how many are then; or none where a path from i goes on for so many levels.
pub fn visit(m: &[u64], rank: &mut [u64], i: u64, done: u64, levels: u64) -> Option<u64>
    requires { Visiting m.now rank.old i done }
    ensures { Visited m.now rank.old rank.new i levels result }
{
    let node = i as usize;
    if rank[node] < m[1] {
        return Some(done);
    }
    if levels == 0 {
        return None;
    }
    let s = step_of(expression_at(m, i));
    match s {
        None => {
            rank[node] = done;
            Some(done + 1)
        }
        Some((a, b)) => {
            let left = visit(m, rank, a, done, levels - 1)?;
            let both = visit(m, rank, b, left, levels - 1)?;
            rank[node] = both;
            Some(both + 1)
        }
    }
}

pub fn unfinish(rank: &mut [u64], n: u64)
    requires { n ≤ length rank.old }
    ensures { Unfinished rank.new n }
{
    rank[..n as usize].fill(n);
}

// Ranks the nodes; false where there is a cycle.
fn walk(m: &[u64], rank: &mut [u64]) -> bool
    requires { Walkable m.now rank.old }
    ensures { Walked m.now rank.new result }
{
    let n = m[1];
    unfinish(rank, n);
    let mut done: u64 = 0;
    for i in 0..n {
        let Some(more) = visit(m, rank, i, done, n) else {
            return false;
        };
        done = more;
    }
    true
}

// Lists the nodes by their ranks.
fn list(order: &mut [u64], rank: &[u64], n: u64)
    requires { Placing rank.now n × ((n ≤ length order.old) × (n ≤ length rank.now)) }
    ensures { Placed order.new rank.now n }
{
    for i in 0..n {
        order[rank[i as usize] as usize] = i;
    }
}

// Ranks and lists the nodes; false where there is a cycle.
fn sort(m: &[u64], order: &mut [u64], rank: &mut [u64]) -> bool
    requires { Walkable m.now rank.old × (4096 ≤ length order.old) }
    ensures { Ordered m.now order.new rank.new result }
{
    if !walk(m, rank) {
        return false;
    }
    list(order, rank, m[1]);
    true
}

// Whether the words are a circuit, and if they are, the nodes in an order in which each stands after its operands, with each node's place there.
pub fn check(m: &[u64], order: &mut [u64], rank: &mut [u64]) -> bool
    requires { (4096 ≤ length order.old) × (4096 ≤ length rank.old) }
    ensures { Checked m.now order.new rank.new result }
{
    if bad_header(m) {
        return false;
    }
    if any_bad(m) {
        return false;
    }
    sort(m, order, rank)
}

// The order and the rank of words that are known to be a circuit.
pub fn order_of(m: &[u64], order: &mut [u64], rank: &mut [u64])
    requires { (not_circuit m.now ≡ false) × ((4096 ≤ length order.old) × (4096 ≤ length rank.old)) }
    ensures { Sorted m.now order.new rank.new }
{
    sort(m, order, rank);
}
