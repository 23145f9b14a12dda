// The base test: an operation passes when both operands do. In a table a test is a bit, 1 for yes.
ghost use Rattle.std.specs.Prelude.{◌≡◌, ◌<◌};
ghost use Rattle.layout.specs.Lists.{bit};
ghost use Rattle.layout.specs.Words.{used, is_main};
ghost use Rattle.layout.specs.Tree.{tree};
ghost use Rattle.circuit.specs.Rank.{at};
ghost use Rattle.read.specs.Tables.{Filled, Right, Told, Roomy, Ranked, Asked, AllAsked, itself};
ghost use Rattle.reading.specs.Readings.{is_base};
ghost use Rattle.reading.specs.Calls.{base_test_call};
ghost use Rattle.reading.specs.Answers.{told_test};
ghost use Rattle.read.specs.Bases.{base_bit, base_entry, base_start, base_join};

use crate::step::{UNKNOWN, step_at};
use circuit::check::check;
use circuit::place::expression_at;
use layout::node::{Expression, Op, Position};
use layout::refusal::Refusal;

fn main_bit(q: Position) -> u64
    ensures { result ≡ bit (is_main q) }
{
    match q {
        Position::Main(_) => 1,
        Position::Aux(_) => 0,
        Position::NextMain(_) => 1,
        Position::NextAux(_) => 0,
    }
}

// What the table starts with: yes for base constants and main inputs, no for extension constants, auxiliary inputs and challenges.
fn leaf_base(e: Expression) -> u64
    ensures { result ≡ base_entry e }
{
    match e {
        Expression::Base(_) => 1,
        Expression::Extension(_) => 0,
        Expression::Challenge(_) => 0,
        Expression::Operation(_, _, _) => UNKNOWN,
        Expression::Input(q) => main_bit(q),
    }
}

fn leaf_bases(m: &[u64], table: &mut [u64])
    requires { Roomy 1 m.now table.old }
    ensures { Filled (used m.now) (at table.new) (base_start m.now) }
{
    for i in 0..m[1] {
        table[i as usize] = leaf_base(expression_at(m, i));
    }
}

fn base_over(o: Op, a: u64, b: u64) -> u64
    ensures { result ≡ base_join o a b }
{
    if a < b { a } else { b }
}

// The base test of node i, worked out once: the rank falls along operands, and the table holds what was found.
fn base_of(m: &[u64], rank: &[u64], table: &mut [u64], i: u64) -> u64
    requires { Asked 1 m.now rank.now table.old i }
    ensures { Right itself m.now (at table.old) (base_bit m.now) → Told itself m.now (at table.old) (at table.new) (base_bit m.now) i result }
{
    let node = i as usize;
    let known = table[node];
    let s = step_at(m, i, known);
    match s {
        None => known,
        Some((o, l, r)) => {
            let a = base_of(m, rank, table, l);
            let b = base_of(m, rank, table, r);
            let d = base_over(o, a, b);
            table[node] = d;
            d
        }
    }
}

// The base test of each node, by ascending ids: in a grown circuit each node's operands are then known, and the stack stays flat.
pub fn bases(m: &[u64], rank: &[u64], table: &mut [u64])
    requires { AllAsked 1 m.now rank.now table.old }
    ensures { Filled (used m.now) (at table.new) (base_bit m.now) }
{
    leaf_bases(m, table);
    for i in 0..m[1] {
        base_of(m, rank, table, i);
    }
}

// The base test of one node of a circuit that has a rank: only what stands below it is asked for.
pub fn is_base(m: &[u64], rank: &[u64], i: u64) -> bool
    requires { Ranked m.now rank.now × (i < used m.now) }
    ensures { result ≡ is_base (tree m.now i) }
{
    let mut table = [0u64; 4096];
    leaf_bases(m, &mut table);
    base_of(m, rank, &mut table, i) == 1
}

// Yes where the value of node i needs no extension.
pub fn base_test(m: &[u64], i: u64) -> Result<bool, Refusal>
    ensures { told_test result ≡ base_test_call m.now i }
{
    let mut order = [0u64; 4096];
    let mut rank = [0u64; 4096];
    if !check(m, &mut order, &mut rank) {
        return Err(Refusal::NotCircuit);
    }
    if m[1] <= i {
        return Err(Refusal::BadId);
    }
    let mut table = [0u64; 4096];
    bases(m, &rank, &mut table);
    let node = i as usize;
    Ok(table[node] == 1)
}
