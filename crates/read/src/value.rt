// Values on lent tables. A main table is one word a column, an auxiliary table or challenge list three; a dual table holds two rows.
ghost use Rattle.std.specs.Prelude.{◌≡◌, [], ◌+◌, ◌*◌, ◌<◌, length, get_or};
ghost use Rattle.arithmetic.specs.Extension.{lift};
ghost use Rattle.layout.specs.Words.{used, apply};
ghost use Rattle.layout.specs.Tree.{tree};
ghost use Rattle.reading.specs.Readings.{Assignment, input_value, value};
ghost use Rattle.reading.specs.Calls.{triple_at, assigned, evaluate_call};
ghost use Rattle.reading.specs.Answers.{told_value};
ghost use Rattle.read.specs.Tables.{Filled, Right, Told, Roomy, Asked};
ghost use Rattle.read.specs.Values.{value_at, value_entry, value_start, first_word, put_triple, Evaluable, Findable};

use crate::step::{UNKNOWN, step_at};
use crate::table::{bad_given, bad_table};
use arithmetic::Triple;
use circuit::check::check;
use circuit::place::{entry, expression_at};
use field::extension;
use layout::node::{Expression, Op, Position};
use layout::refusal::Refusal;
use paths::counting::count_paths;

// Column c of one row of a main table, lifted.
fn main_at(row: &[u64], c: u64) -> Triple
    ensures { result ≡ lift (get_or row.now c 0) }
{
    extension::lift(entry(row, c))
}

// Column c of one row of an auxiliary table, or a challenge.
pub fn aux_at(row: &[u64], c: u64) -> Triple
    ensures { result ≡ triple_at row.now c }
{
    if row.len() <= c as usize {
        return extension::lift(0);
    }
    Triple {
        c0: entry(row, 3 * c),
        c1: entry(row, 3 * c + 1),
        c2: entry(row, 3 * c + 2),
    }
}

// The next row is the second half of the same lent table, read as the current row is.
fn input_value(q: Position, main: &[u64], aux: &[u64]) -> Triple
    ensures { result ≡ input_value (assigned main.now aux.now []) q }
{
    let main_half = main.len() / 2;
    let aux_half = aux.len() / 2;
    match q {
        Position::Main(c) => main_at(main, c),
        Position::Aux(c) => aux_at(aux, c),
        Position::NextMain(c) => main_at(&main[main_half..], c),
        Position::NextAux(c) => aux_at(&aux[aux_half..], c),
    }
}

// What the table starts with: main inputs and base constants lifted.
fn leaf_value(e: Expression, main: &[u64], aux: &[u64], challenges: &[u64]) -> Triple
    ensures { result ≡ value_entry (assigned main.now aux.now challenges.now) e }
{
    match e {
        Expression::Base(w) => extension::lift(w),
        Expression::Extension(x) => x,
        Expression::Challenge(k) => aux_at(challenges, k),
        Expression::Operation(_, _, _) => extension::lift(UNKNOWN),
        Expression::Input(q) => input_value(q, main, aux),
    }
}

// Entry i of the table of values.
pub fn entry_at(table: &[u64], i: u64) -> Triple
    requires { 3 * i + 2 < length table.now }
    ensures { result ≡ triple_at table.now i }
{
    let place = 3 * (i as usize);
    Triple {
        c0: table[place],
        c1: table[place + 1],
        c2: table[place + 2],
    }
}

pub fn keep(table: &mut [u64], i: u64, x: Triple)
    requires { 3 * i + 2 < length table.old }
    ensures { table.new ≡ put_triple table.old i x }
{
    let place = 3 * (i as usize);
    table[place] = x.c0;
    table[place + 1] = x.c1;
    table[place + 2] = x.c2;
}

fn leaf_values(m: &[u64], table: &mut [u64], main: &[u64], aux: &[u64], challenges: &[u64])
    requires { Roomy 3 m.now table.old }
    ensures { Filled (used m.now) (triple_at table.new) (value_start (assigned main.now aux.now challenges.now) m.now) }
{
    for i in 0..m[1] {
        keep(
            table,
            i,
            leaf_value(expression_at(m, i), main, aux, challenges),
        );
    }
}

fn value_over(o: Op, a: Triple, b: Triple) -> Triple
    ensures { result ≡ apply o a b }
{
    match o {
        Op::Add => extension::add(a, b),
        Op::Multiply => extension::multiply(a, b),
    }
}

// Finds the value of node i, once: the rank falls along operands, and the table holds what was found. It holds the leaves' values to begin with, so
// what the lent tables say is what it says. An answer goes into its entry only: a triple that waits in each frame would make the stack half as deep again.
fn find_value(m: &[u64], rank: &[u64], table: &mut [u64], i: u64)
    requires { Asked 3 m.now rank.now table.old i }
    ensures { (s : Assignment) → Right first_word m.now (triple_at table.old) (value_at s m.now) → Told first_word m.now (triple_at table.old) (triple_at table.new) (value_at s m.now) i (triple_at table.new i) }
{
    let known = entry_at(table, i);
    let s = step_at(m, i, known.c0);
    match s {
        None => {}
        Some((o, l, r)) => {
            find_value(m, rank, table, l);
            find_value(m, rank, table, r);
            let x = value_over(o, entry_at(table, l), entry_at(table, r));
            keep(table, i, x);
        }
    }
}

// Finds the values of the nodes that have a path count, by ascending ids: in a grown circuit each node's operands are then known, and the stack stays flat.
fn find_below(m: &[u64], rank: &[u64], counts: &[u64], table: &mut [u64])
    requires { Findable m.now rank.now counts.now table.old }
    ensures { (s : Assignment) → Right first_word m.now (triple_at table.old) (value_at s m.now) → Right first_word m.now (triple_at table.new) (value_at s m.now) }
{
    for i in 0..m[1] {
        if counts[i as usize] != 0 {
            find_value(m, rank, table, i);
        }
    }
}

fn value_at(
    m: &[u64],
    rank: &[u64],
    counts: &[u64],
    i: u64,
    main: &[u64],
    aux: &[u64],
    challenges: &[u64],
) -> Triple
    requires { Evaluable m.now rank.now counts.now i }
    ensures { result ≡ value (assigned main.now aux.now challenges.now) (tree m.now i) }
{
    let mut table = [0u64; 12288];
    leaf_values(m, &mut table, main, aux, challenges);
    find_below(m, rank, counts, &mut table);
    find_value(m, rank, &mut table, i);
    entry_at(&table, i)
}

// The value of a node, where the lent tables hold the cells of the columns and the challenges.
pub fn evaluate(
    m: &[u64],
    i: u64,
    main: &[u64],
    aux: &[u64],
    challenges: &[u64],
) -> Result<Triple, Refusal>
    ensures { told_value result ≡ evaluate_call m.now i main.now aux.now challenges.now }
{
    let mut order = [0u64; 4096];
    let mut rank = [0u64; 4096];
    if !check(m, &mut order, &mut rank) {
        return Err(Refusal::NotCircuit);
    }
    if m[1] <= i {
        return Err(Refusal::BadId);
    }
    let roots = [i];
    let mut counts = [0u64; 4096];
    count_paths(m, &order, &rank, &roots, &mut counts);
    if bad_table(m, &counts, i, main, aux, challenges) {
        return Err(Refusal::Table);
    }
    if bad_given(main, aux, challenges) {
        return Err(Refusal::BadWord);
    }
    Ok(value_at(m, &rank, &counts, i, main, aux, challenges))
}
