// The records of nodes: every reading of a node, compared.
use crate::cells::{AUX, CHALLENGES, MAIN, NEXT_AUX, NEXT_MAIN, TABLES};
use crate::tally::{
    CLASSES, LEAST, NODE, NODES, REGISTERED, ROWS, STAGE, VALUED, WRONG, add, compare,
    compare_count, flag, get, must, part, put, turn,
};
use crate::text::{after, byte_at, code_at, number, triple};
use arithmetic::Triple;
use circuit::calls;
use circuit::place::{FourWords, words_of};
use classes::calls::equal;
use field::extension::lift;
use layout::node::Node;
use layout::refusal::Refusal;
use read::base_test::base_test;
use read::constants::{is_minus_one, is_one, is_zero};
use read::degree::degree;
use read::value::evaluate;

// How many digits an expression of this kind takes.
fn width(kind: u64) -> usize {
    match kind {
        0 => 16,
        1 => 48,
        3 | 4 => 8,
        _ => 4,
    }
}

// An expression in digits: its kind and three words, those that its kind doesn't name 0.
fn expression_in(text: &[u8]) -> FourWords {
    let kind = number(text, 0, 1);
    let at: usize = 2;
    match kind {
        0 => FourWords {
            kind: 0,
            first: number(text, at, 8),
            second: 0,
            third: 0,
        },
        1 => FourWords {
            kind: 1,
            first: number(text, at, 8),
            second: number(text, at + 16, 8),
            third: number(text, at + 32, 8),
        },
        3 | 4 => FourWords {
            kind: kind,
            first: number(text, at, 2),
            second: number(text, at + 4, 2),
            third: 0,
        },
        _ => FourWords {
            kind: kind,
            first: number(text, at, 2),
            second: 0,
            third: 0,
        },
    }
}

// A mark as it is written: R registered, L loose.
fn mark(registered: bool) -> u8 {
    if registered { b'R' } else { b'L' }
}

fn compare_mark(t: &mut [u64], registered: bool, want: u64) {
    compare(t, mark(registered) as u64, want);
    add(t, REGISTERED, flag(registered));
}

fn compare_triple(t: &mut [u64], got: Triple, want: Triple) {
    compare(t, got.c0, want.c0);
    compare(t, got.c1, want.c1);
    compare(t, got.c2, want.c2);
}

// An expression's three words.
fn three(w: FourWords) -> Triple {
    Triple {
        c0: w.first,
        c1: w.second,
        c2: w.third,
    }
}

// The node itself: its mark and expression, from the mark on.
fn compare_node(t: &mut [u64], n: Node, text: &[u8]) {
    compare_mark(t, n.registered, code_at(text, 0));
    let e = n.expression;
    let got = words_of(e);
    let want = expression_in(after(text, 1));
    compare(t, got.kind, want.kind);
    compare_triple(t, three(got), three(want));
}

fn compare_read(t: &mut [u64], m: &[u64], i: u64, text: &[u8]) {
    let r = calls::read(m, i);
    match r {
        Ok(n) => compare_node(t, n, text),
        Err(_) => put(t, WRONG, 1),
    }
}

// The degree of which this is one more.
fn below(n: u64) -> i64 {
    if n == 0 {
        return -1;
    }
    ((n - 1) % 0x1_0000_0000) as i64
}

// A degree, which is written as one more.
pub(crate) fn compare_degree(t: &mut [u64], d: Result<i64, Refusal>, want: u64) {
    compare_count(t, d.map(|d| flag(d == below(want))), 1);
}

// A test as it is written.
fn written(yes: bool) -> u8 {
    if yes { b'1' } else { b'0' }
}

fn compare_test(t: &mut [u64], r: Result<bool, Refusal>, want: u64) {
    compare_count(t, r.map(|yes| written(yes) as u64), want);
}

// The tests for 0, 1 and -1.
fn compare_constants(t: &mut [u64], m: &[u64], i: u64, text: &[u8]) {
    compare_test(t, is_zero(m, i), code_at(text, 0));
    compare_test(t, is_one(m, i), code_at(text, 1));
    compare_test(t, is_minus_one(m, i), code_at(text, 2));
}

// The degree and the four tests, from the degree on.
fn compare_tests(t: &mut [u64], m: &[u64], i: u64, text: &[u8]) {
    compare_degree(t, degree(m, i), number(text, 0, 4));
    compare_test(t, base_test(m, i), code_at(text, 8));
    compare_constants(t, m, i, after(text, 9));
}

// Where a node's class is kept.
fn class_place(i: u64) -> usize {
    std::num::wrapping_add_usize(CLASSES, i as usize)
}

// The class, the least id of equal structure: the node equals it, and it is its own class. That no two of the ids that are their own class are equal
// shows once all nodes have come.
fn compare_class(t: &mut [u64], m: &[u64], i: u64, class: u64) {
    put(t, class_place(i), class);
    add(t, LEAST, flag(class == i));
    must(t, class <= i);
    let own = get(t, class_place(class));
    must(t, own == class);
    compare_count(t, equal(m, i, class).map(flag), 1);
}

// The value: a word where the base test says yes, else a triple.
fn compare_value(t: &mut [u64], v: Result<Triple, Refusal>, base: bool, text: &[u8]) {
    match v {
        Ok(x) => {
            if base {
                must(t, text.len() == 16);
                compare_triple(t, x, lift(number(text, 0, 8)));
            } else {
                must(t, text.len() == 48);
                compare_triple(t, x, triple(text, 0));
            }
        }
        Err(_) => put(t, WRONG, 1),
    }
}

// The value of a node. A single-row circuit's tables are the first half of a dual-row one's.
fn value_of(m: &[u64], i: u64, rows: u64, tables: &[u64]) -> Result<Triple, Refusal> {
    let challenges = part(tables, CHALLENGES, TABLES);
    if rows == 1 {
        return evaluate(
            m,
            i,
            part(tables, MAIN, NEXT_MAIN),
            part(tables, AUX, NEXT_AUX),
            challenges,
        );
    }
    evaluate(
        m,
        i,
        part(tables, MAIN, AUX),
        part(tables, AUX, CHALLENGES),
        challenges,
    )
}

// One node more, whose id this is.
fn count_node(t: &mut [u64], i: u64) {
    turn(t, STAGE, 1, 1);
    turn(t, NODE, i, std::num::wrapping_add_u64(i, 1));
    add(t, NODES, 1);
}

// From the degree on: degree, tests, class, value.
fn compare_readings(t: &mut [u64], m: &[u64], i: u64, tables: &[u64], text: &[u8]) {
    compare_tests(t, m, i, text);
    compare_class(t, m, i, number(text, 12, 2));
    if get(t, VALUED) == 1 {
        let v = value_of(m, i, get(t, ROWS), tables);
        compare_value(t, v, byte_at(text, 8) == b'1', after(text, 16));
    } else {
        must(t, text.len() == 16);
    }
}

// A node: id, mark, kind and expression, readings.
pub(crate) fn node(t: &mut [u64], m: &[u64], tables: &[u64], line: &[u8]) {
    let i = number(line, 1, 2);
    count_node(t, i);
    compare_read(t, m, i, after(line, 5));
    let text = after(after(line, 8), width(number(line, 6, 1)));
    compare_readings(t, m, i, tables, text);
}
