// The words of a place, read and written: nothing above this module knows where they stand.
ghost use Rattle.std.specs.Prelude.{◌≡◌, [], ◌∷◌, ◌+◌, ◌<◌, ◌≤◌, length, set};
ghost use Rattle.std.proofs.lemmas.List.Edits.{sets};
ghost use Rattle.layout.specs.Words.{used, limit, offset, decode, expression_at, node_at, op_kind, input_kind, column, encode, made};
ghost use Rattle.circuit.specs.Rank.{at};

use arithmetic::Triple;
use layout::node::{Expression, Node, Op, Position};

// The words before the first place: the row kind and the used count.
pub const HEADER: usize = 2;

// The words of a place.
pub const PLACE: usize = 6;

// Word i of lent words, or 0 beyond them.
pub fn entry(words: &[u64], i: u64) -> u64
    ensures { result ≡ at words.now i }
{
    words.get(i as usize).copied().unwrap_or(0)
}

// What a kind and its three words say. The kinds are numbers here and in the two functions that write them, since C has the words before it.
fn decoded(kind: u64, a: u64, b: u64, c: u64) -> Expression
    ensures { result ≡ decode kind a b c }
{
    match kind {
        0 => Expression::Base(a),
        1 => Expression::Extension(Triple {
            c0: a,
            c1: b,
            c2: c,
        }),
        2 => Expression::Challenge(a),
        3 => Expression::Operation(Op::Add, a, b),
        4 => Expression::Operation(Op::Multiply, a, b),
        5 => Expression::Input(Position::Main(a)),
        6 => Expression::Input(Position::Aux(a)),
        7 => Expression::Input(Position::NextMain(a)),
        _ => Expression::Input(Position::NextAux(a)),
    }
}

// What node i is.
pub fn expression_at(m: &[u64], i: u64) -> Expression
    requires { offset i + 6 ≤ length m.now }
    ensures { result ≡ expression_at m.now i }
{
    let at = HEADER + PLACE * (i as usize);
    decoded(m[at], m[at + 1], m[at + 2], m[at + 3])
}

// Node i.
pub fn node_at(m: &[u64], i: u64) -> Node
    requires { offset i + 6 ≤ length m.now }
    ensures { result ≡ node_at m.now i }
{
    let e = expression_at(m, i);
    let at = HEADER + PLACE * (i as usize);
    Node {
        expression: e,
        registered: m[at + 4] == 1,
        references: m[at + 5],
    }
}

// An expression's kind and three words.
#[derive(Clone, Copy, Debug, PartialEq, Eq)]
pub struct FourWords {
    pub kind: u64,
    pub first: u64,
    pub second: u64,
    pub third: u64,
}

// The kind of an operation is its discriminant.
fn op_kind(o: Op) -> u64
    ensures { result ≡ op_kind o }
{
    o as u64
}

// The kind of an input.
fn input_kind(q: Position) -> u64
    ensures { result ≡ input_kind q }
{
    match q {
        Position::Main(_) => 5,
        Position::Aux(_) => 6,
        Position::NextMain(_) => 7,
        Position::NextAux(_) => 8,
    }
}

// The column of an input.
pub fn column_of(q: Position) -> u64
    ensures { result ≡ column q }
{
    match q {
        Position::Main(c) => c,
        Position::Aux(c) => c,
        Position::NextMain(c) => c,
        Position::NextAux(c) => c,
    }
}

// A word that the kind doesn't name is 0.
pub fn words_of(e: Expression) -> FourWords
    ensures { result.kind ∷ result.first ∷ result.second ∷ result.third ∷ [] ≡ encode e }
{
    match e {
        Expression::Base(w) => FourWords {
            kind: 0,
            first: w,
            second: 0,
            third: 0,
        },
        Expression::Extension(x) => FourWords {
            kind: 1,
            first: x.c0,
            second: x.c1,
            third: x.c2,
        },
        Expression::Challenge(k) => FourWords {
            kind: 2,
            first: k,
            second: 0,
            third: 0,
        },
        Expression::Operation(o, l, r) => FourWords {
            kind: op_kind(o),
            first: l,
            second: r,
            third: 0,
        },
        Expression::Input(q) => FourWords {
            kind: input_kind(q),
            first: column_of(q),
            second: 0,
            third: 0,
        },
    }
}

// All of place i is written, so that its words are determined: registered, its count 0.
fn fill(m: &mut [u64], i: u64, w: FourWords)
    requires { offset i + 6 ≤ length m.old }
    ensures { m.new ≡ sets m.old (offset i) (w.kind ∷ w.first ∷ w.second ∷ w.third ∷ 1 ∷ 0 ∷ []) }
{
    let at = HEADER + PLACE * (i as usize);
    m[at] = w.kind;
    m[at + 1] = w.first;
    m[at + 2] = w.second;
    m[at + 3] = w.third;
    m[at + 4] = 1;
    m[at + 5] = 0;
}

// One node more, registered and its count 0, in the next place.
pub fn make(m: &mut [u64], e: Expression)
    requires { used m.old < limit m.old }
    ensures { m.new ≡ made m.old e }
{
    let u = m[1];
    fill(m, u, words_of(e));
    m[1] = u + 1;
}

// Word k of place i: 1 the left operand and 2 the right one, 4 the mark, 5 the reference count.
pub fn write_word(m: &mut [u64], i: u64, k: u64, v: u64)
    requires { (offset i + 6 ≤ length m.old) × (k < 6) }
    ensures { m.new ≡ set m.old (offset i + k) v }
{
    let at = HEADER + PLACE * (i as usize) + (k as usize);
    m[at] = v;
}
