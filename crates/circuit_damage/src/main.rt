// Runs hand-made memories, damaged in one way each and at the edge of each bound, and compares the answers with those that document 01 asks for.
// Says how many were compared, and the number of each that differs.
#![tactic(auto)]

ghost use Rattle.std.specs.Prelude.{◌<◌, ◌≤◌};

use circuit::calls::{free, read, start, used};
use circuit::place::words_of;
use circuit::refusal::number_of;
use layout::node::{Node, RowKind};
use layout::refusal::Refusal;
use std::io;

// p - 1, the last word of the base field
const LAST: u64 = field::base::P - 1;

const NOT_CIRCUIT: u64 = Refusal::NotCircuit as u64;

const BAD_ID: u64 = Refusal::BadId as u64;

// How many answers were compared, and how many differed.
#[derive(Clone, Copy)]
struct Tally {
    compared: u64,
    differed: u64,
}

// One comparison more.
fn compare(rt: &impl Print, t: Tally, got: u64, want: u64) -> io::Result<Tally> {
    let number = std::num::wrapping_add_u64(t.compared, 1);
    if got == want {
        return Ok(Tally {
            compared: number,
            differed: t.differed,
        });
    }
    println!(rt; "differs: {number}")?;
    Ok(Tally {
        compared: number,
        differed: std::num::wrapping_add_u64(t.differed, 1),
    })
}

// The number of an answer: 0 where the call is accepted.
fn number<T: Copy>(answer: Result<T, Refusal>) -> u64 {
    match answer {
        Ok(_) => 0,
        Err(r) => number_of(r),
    }
}

// The words with those of place i set.
fn filled(m: [u64; 64], i: usize, w: [u64; 6]) -> [u64; 64]
    requires { i < 10 }
{
    let at = 2 + 6 * i;
    let mut r = m;
    r[at] = w[0];
    r[at + 1] = w[1];
    r[at + 2] = w[2];
    r[at + 3] = w[3];
    r[at + 4] = w[4];
    r[at + 5] = w[5];
    r
}

// Dual-row, with a node of each kind, ten places of which nine are used, and two words left over. What is unused holds junk.
fn sample() -> [u64; 64] {
    let mut m = [88u64; 64];
    m[0] = 2;
    m[1] = 9;
    m = filled(m, 0, [0, 5, 77, 77, 1, 0]);
    m = filled(m, 1, [1, 1, 2, 3, 1, 4]);
    m = filled(m, 2, [2, 7, 77, 77, 0, 0]);
    m = filled(m, 3, [3, 0, 1, 77, 1, 0]);
    m = filled(m, 4, [4, 3, 2, 77, 1, 0]);
    m = filled(m, 5, [5, 0, 77, 77, 1, 0]);
    m = filled(m, 6, [6, 1, 77, 77, 1, 0]);
    m = filled(m, 7, [7, 2, 77, 77, 1, 0]);
    m = filled(m, 8, [8, 3, 77, 77, 1, 0]);
    m = filled(m, 9, [99, 99, 99, 99, 99, 99]);
    m
}

// The sample with word `at` of it set to v: both counts are refused with `want`, or accepted where that is 0.
fn changed(rt: &impl Print, t: Tally, at: usize, v: u64, want: u64) -> io::Result<Tally>
    requires { at < 64 }
{
    let mut m = sample();
    m[at] = v;
    let a = compare(rt, t, number(used(&m)), want)?;
    compare(rt, a, number(free(&m)), want)
}

// The same with two words set.
fn twice(
    rt: &impl Print,
    t: Tally,
    at: usize,
    v: u64,
    also: usize,
    w: u64,
    want: u64,
) -> io::Result<Tally>
    requires { (at < 64) × (also < 64) }
{
    let mut m = sample();
    m[at] = v;
    m[also] = w;
    compare(rt, t, number(used(&m)), want)
}

// The sample as a single-row circuit, with these kinds for its two inputs of the next row.
fn single(rt: &impl Print, t: Tally, a: u64, b: u64, want: u64) -> io::Result<Tally> {
    let mut m = sample();
    m[0] = 1;
    m[44] = a;
    m[50] = b;
    compare(rt, t, number(used(&m)), want)
}

// Row kind and used count.
fn headers(rt: &impl Print, t: Tally) -> io::Result<Tally> {
    let mut r = t;
    r = changed(rt, r, 0, 0, NOT_CIRCUIT)?;
    r = changed(rt, r, 0, 2, 0)?;
    r = changed(rt, r, 0, 3, NOT_CIRCUIT)?;
    r = changed(rt, r, 1, 9, 0)?;
    r = changed(rt, r, 1, 10, NOT_CIRCUIT)?;
    r = changed(rt, r, 1, 11, NOT_CIRCUIT)?;
    r = changed(rt, r, 1, 18446744073709551615, NOT_CIRCUIT)?;
    Ok(r)
}

// Kinds and marks, and words that nobody reads.
fn kinds(rt: &impl Print, t: Tally) -> io::Result<Tally> {
    let mut r = t;
    r = changed(rt, r, 2, 8, 0)?;
    r = changed(rt, r, 2, 9, NOT_CIRCUIT)?;
    r = changed(rt, r, 2, 18446744073709551615, NOT_CIRCUIT)?;
    r = changed(rt, r, 6, 0, 0)?;
    r = changed(rt, r, 6, 1, 0)?;
    r = changed(rt, r, 6, 2, NOT_CIRCUIT)?;
    r = changed(rt, r, 7, 18446744073709551615, 0)?;
    r = changed(rt, r, 4, 18446744073709551615, 0)?;
    r = changed(rt, r, 56, 18446744073709551615, 0)?;
    r = changed(rt, r, 60, 2, 0)?;
    r = changed(rt, r, 63, 18446744073709551615, 0)?;
    Ok(r)
}

// Words of constants: p - 1 and p, and an extension constant that unlifts.
fn constants(rt: &impl Print, t: Tally) -> io::Result<Tally> {
    let mut r = t;
    r = changed(rt, r, 3, LAST, 0)?;
    r = changed(rt, r, 3, LAST + 1, NOT_CIRCUIT)?;
    r = changed(rt, r, 9, LAST, 0)?;
    r = changed(rt, r, 9, LAST + 1, NOT_CIRCUIT)?;
    r = changed(rt, r, 10, LAST, 0)?;
    r = changed(rt, r, 10, LAST + 1, NOT_CIRCUIT)?;
    r = changed(rt, r, 11, LAST, 0)?;
    r = changed(rt, r, 11, LAST + 1, NOT_CIRCUIT)?;
    r = changed(rt, r, 10, 0, 0)?;
    r = changed(rt, r, 11, 0, 0)?;
    r = twice(rt, r, 10, 0, 11, 0, NOT_CIRCUIT)?;
    Ok(r)
}

// Columns and challenges: 65,535 and 65,536.
fn indices(rt: &impl Print, t: Tally) -> io::Result<Tally> {
    let mut r = t;
    r = changed(rt, r, 15, 65535, 0)?;
    r = changed(rt, r, 15, 65536, NOT_CIRCUIT)?;
    r = changed(rt, r, 33, 65535, 0)?;
    r = changed(rt, r, 33, 65536, NOT_CIRCUIT)?;
    r = changed(rt, r, 39, 65535, 0)?;
    r = changed(rt, r, 39, 65536, NOT_CIRCUIT)?;
    r = changed(rt, r, 45, 65535, 0)?;
    r = changed(rt, r, 45, 65536, NOT_CIRCUIT)?;
    r = changed(rt, r, 51, 65535, 0)?;
    r = changed(rt, r, 51, 65536, NOT_CIRCUIT)?;
    Ok(r)
}

// Operands: the last used id and the next, the node itself, a cycle of two, and one that rises without a cycle.
fn operands(rt: &impl Print, t: Tally) -> io::Result<Tally> {
    let mut r = t;
    r = changed(rt, r, 21, 8, 0)?;
    r = changed(rt, r, 21, 9, NOT_CIRCUIT)?;
    r = changed(rt, r, 22, 8, 0)?;
    r = changed(rt, r, 22, 9, NOT_CIRCUIT)?;
    r = changed(rt, r, 21, 3, NOT_CIRCUIT)?;
    r = changed(rt, r, 22, 3, NOT_CIRCUIT)?;
    r = changed(rt, r, 21, 4, NOT_CIRCUIT)?;
    r = changed(rt, r, 22, 4, NOT_CIRCUIT)?;
    r = twice(rt, r, 21, 4, 27, 2, 0)?;
    r = changed(rt, r, 22, 18446744073709551615, NOT_CIRCUIT)?;
    Ok(r)
}

// Inputs of the next row in a single-row circuit: the sample has two.
fn rows(rt: &impl Print, t: Tally) -> io::Result<Tally> {
    let mut r = t;
    r = changed(rt, r, 0, 1, NOT_CIRCUIT)?;
    r = single(rt, r, 5, 6, 0)?;
    r = single(rt, r, 7, 6, NOT_CIRCUIT)?;
    r = single(rt, r, 5, 8, NOT_CIRCUIT)?;
    Ok(r)
}

// The sample's first k words: the number of an answer, and how many places are free.
fn cut(rt: &impl Print, t: Tally, k: usize, want: u64, places: u64) -> io::Result<Tally>
    requires { k ≤ 64 }
{
    let m = sample();
    let mut r = t;
    r = compare(rt, r, number(used(&m[0..k])), want)?;
    r = compare(rt, r, free(&m[0..k]).unwrap_or(0), places)?;
    Ok(r)
}

// The first k words of a fresh circuit.
fn fresh(rt: &impl Print, t: Tally, k: usize, want: u64, places: u64) -> io::Result<Tally>
    requires { k ≤ 14 }
{
    let mut m = [0u64; 14];
    m[0] = 1;
    let mut r = t;
    r = compare(rt, r, number(used(&m[0..k])), want)?;
    r = compare(rt, r, free(&m[0..k]).unwrap_or(0), places)?;
    Ok(r)
}

// Slices too short for the two first words, and those that a place just fits or does not.
fn lengths(rt: &impl Print, t: Tally) -> io::Result<Tally> {
    let mut r = t;
    r = cut(rt, r, 0, NOT_CIRCUIT, 0)?;
    r = cut(rt, r, 1, NOT_CIRCUIT, 0)?;
    r = cut(rt, r, 2, NOT_CIRCUIT, 0)?;
    r = cut(rt, r, 55, NOT_CIRCUIT, 0)?;
    r = cut(rt, r, 56, 0, 0)?;
    r = cut(rt, r, 61, 0, 0)?;
    r = cut(rt, r, 62, 0, 1)?;
    r = cut(rt, r, 64, 0, 1)?;
    r = fresh(rt, r, 0, NOT_CIRCUIT, 0)?;
    r = fresh(rt, r, 1, NOT_CIRCUIT, 0)?;
    r = fresh(rt, r, 2, 0, 0)?;
    r = fresh(rt, r, 7, 0, 0)?;
    r = fresh(rt, r, 8, 0, 1)?;
    r = fresh(rt, r, 14, 0, 2)?;
    Ok(r)
}

// What was read, as the six words of a place; all 0 where the call is refused.
fn words(answer: Result<Node, Refusal>) -> [u64; 6] {
    match answer {
        Ok(n) => {
            let e = n.expression;
            let w = words_of(e);
            let mark = u64::from(n.registered);
            [w.kind, w.first, w.second, w.third, mark, n.references]
        }
        Err(_) => [0, 0, 0, 0, 0, 0],
    }
}

// Compares the node i of the sample with the words that it should show.
fn node(rt: &impl Print, t: Tally, i: u64, want: [u64; 6]) -> io::Result<Tally> {
    let m = sample();
    let got = words(read(&m, i));
    let mut r = t;
    r = compare(rt, r, got[0], want[0])?;
    r = compare(rt, r, got[1], want[1])?;
    r = compare(rt, r, got[2], want[2])?;
    r = compare(rt, r, got[3], want[3])?;
    r = compare(rt, r, got[4], want[4])?;
    r = compare(rt, r, got[5], want[5])?;
    Ok(r)
}

// The sample's nodes.
fn nodes(rt: &impl Print, t: Tally) -> io::Result<Tally> {
    let mut r = t;
    r = node(rt, r, 0, [0, 5, 0, 0, 1, 0])?;
    r = node(rt, r, 1, [1, 1, 2, 3, 1, 4])?;
    r = node(rt, r, 2, [2, 7, 0, 0, 0, 0])?;
    r = node(rt, r, 3, [3, 0, 1, 0, 1, 0])?;
    r = node(rt, r, 4, [4, 3, 2, 0, 1, 0])?;
    r = node(rt, r, 5, [5, 0, 0, 0, 1, 0])?;
    r = node(rt, r, 6, [6, 1, 0, 0, 1, 0])?;
    r = node(rt, r, 7, [7, 2, 0, 0, 1, 0])?;
    r = node(rt, r, 8, [8, 3, 0, 0, 1, 0])?;
    Ok(r)
}

// Ids that are none, in the sample and in a damaged one.
fn ids(rt: &impl Print, t: Tally) -> io::Result<Tally> {
    let m = sample();
    let mut bad = sample();
    bad[2] = 9;
    let mut r = t;
    r = compare(rt, r, number(read(&m, 8)), 0)?;
    r = compare(rt, r, number(read(&m, 9)), BAD_ID)?;
    r = compare(rt, r, number(read(&m, 18446744073709551615)), BAD_ID)?;
    r = compare(rt, r, number(read(&bad, 9)), NOT_CIRCUIT)?;
    Ok(r)
}

// A start in the first k of four words: its number, and the words afterwards.
fn started(
    rt: &impl Print,
    t: Tally,
    k: usize,
    kind: RowKind,
    want: u64,
    after: [u64; 4],
) -> io::Result<Tally>
    requires { k ≤ 4 }
{
    let mut m = [77u64; 4];
    let mut r = t;
    r = compare(rt, r, number(start(&mut m[0..k], kind)), want)?;
    r = compare(rt, r, m[0], after[0])?;
    r = compare(rt, r, m[1], after[1])?;
    r = compare(rt, r, m[2], after[2])?;
    r = compare(rt, r, m[3], after[3])?;
    Ok(r)
}

// A start changes the two first words and no other, and nothing where it is refused.
fn starts(rt: &impl Print, t: Tally) -> io::Result<Tally> {
    let mut r = t;
    r = started(rt, r, 0, RowKind::Dual, NOT_CIRCUIT, [77, 77, 77, 77])?;
    r = started(rt, r, 1, RowKind::Dual, NOT_CIRCUIT, [77, 77, 77, 77])?;
    r = started(rt, r, 2, RowKind::Single, 0, [1, 0, 77, 77])?;
    r = started(rt, r, 2, RowKind::Dual, 0, [2, 0, 77, 77])?;
    r = started(rt, r, 4, RowKind::Dual, 0, [2, 0, 77, 77])?;
    Ok(r)
}

// Writes place i, if it is lent.
fn put(m: &mut [u64], i: usize, kind: u64, operand: u64) {
    if i < 5000 {
        let at = 2 + 6 * i;
        if at + 6 <= m.len() {
            m[at] = kind;
            m[at + 1] = operand;
            m[at + 2] = operand;
            m[at + 4] = 1;
        }
    }
}

// Node i of n adds the next one to itself; the last is of this kind over node 0: a constant, or one that closes a cycle.
fn put_link(m: &mut [u64], i: usize, n: usize, kind: u64)
    requires { i < n }
{
    if i + 1 < n {
        put(m, i, 3, i as u64 + 1);
    } else {
        put(m, i, kind, 0);
    }
}

fn chain(m: &mut [u64], n: usize, kind: u64) {
    for i in 0..n {
        put_link(m, i, n, kind);
    }
}

// 4,096 nodes and 4,097; the deepest chain, which falls, and the longest cycle.
fn large(rt: &impl Print, t: Tally) -> io::Result<Tally> {
    let mut m = [0u64; 24584];
    m[0] = 1;
    let mut r = t;
    m[1] = 4096;
    r = compare(rt, r, number(used(&m)), 0)?;
    r = compare(rt, r, free(&m).unwrap_or(0), 0)?;
    m[1] = 4097;
    r = compare(rt, r, number(used(&m)), NOT_CIRCUIT)?;
    m[1] = 4095;
    r = compare(rt, r, free(&m).unwrap_or(0), 1)?;
    m[1] = 4096;
    chain(&mut m, 4096, 0);
    r = compare(rt, r, number(used(&m)), 0)?;
    chain(&mut m, 4096, 4);
    r = compare(rt, r, number(used(&m)), NOT_CIRCUIT)?;
    Ok(r)
}

fn main(rt: HostRuntime) -> io::Result<()> {
    let mut t = Tally {
        compared: 0,
        differed: 0,
    };
    t = headers(&rt, t)?;
    t = kinds(&rt, t)?;
    t = constants(&rt, t)?;
    t = indices(&rt, t)?;
    t = operands(&rt, t)?;
    t = rows(&rt, t)?;
    t = lengths(&rt, t)?;
    t = nodes(&rt, t)?;
    t = ids(&rt, t)?;
    t = starts(&rt, t)?;
    t = large(&rt, t)?;
    let Tally { compared, differed } = t;
    println!(rt; "compared {compared}, of which differ {differed}")
}
