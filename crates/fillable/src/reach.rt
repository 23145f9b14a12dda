// How far each node reads among the columns of the current row, in one pass up the order.
ghost use Rattle.std.specs.Prelude.{◌≡◌, ◌≤◌, max};
ghost use Rattle.layout.specs.Words.{used, column};
ghost use Rattle.circuit.specs.Rank.{at};
ghost use Rattle.read.specs.Tables.{Filled};
ghost use Rattle.read.specs.Passes.{Ordered, Joinable};
ghost use Rattle.fillable.specs.Reaching.{input_reach, reach_entry, reach_to, Columned};

use circuit::place::expression_at;
use layout::node::{Expression, Position};
use read::step::operands_of;

// One above the column, of a main or of an auxiliary input of the current row.
fn input_reach(q: Position, main: bool) -> u64
    requires { column q ≤ 65535 }
    ensures { result ≡ input_reach main q }
{
    match q {
        Position::Main(c) => {
            if main {
                return c + 1;
            }
            0
        }
        Position::Aux(c) => {
            if main {
                return 0;
            }
            c + 1
        }
        Position::NextMain(_) => 0,
        Position::NextAux(_) => 0,
    }
}

// Of a leaf: an operation's comes from its operands.
fn leaf_reach(e: Expression, main: bool) -> u64
    requires { Columned e }
    ensures { result ≡ reach_entry main e }
{
    match e {
        Expression::Base(_) => 0,
        Expression::Extension(_) => 0,
        Expression::Challenge(_) => 0,
        Expression::Operation(_, _, _) => 0,
        Expression::Input(q) => input_reach(q, main),
    }
}

fn larger(a: u64, b: u64) -> u64
    ensures { result ≡ max a b }
{
    if a < b { b } else { a }
}

// Of node i, from its operands'.
fn reach_at(m: &[u64], table: &[u64], main: bool, i: u64) -> u64
    requires { Joinable (reach_to main m.now) m.now table.now i }
    ensures { result ≡ reach_to main m.now i }
{
    let e = expression_at(m, i);
    let s = operands_of(e);
    match s {
        None => leaf_reach(e, main),
        Some((_, l, r)) => {
            let left = l as usize;
            let right = r as usize;
            larger(table[left], table[right])
        }
    }
}

// Of each node. The rank is not read: it says why the order serves.
pub(crate) fn reaches(m: &[u64], order: &[u64], rank: &[u64], main: bool, table: &mut [u64])
    requires { Ordered m.now order.now rank.now table.old }
    ensures { Filled (used m.now) (at table.new) (reach_to main m.now) }
{
    for &i in &order[..m[1] as usize] {
        table[i as usize] = reach_at(m, table, main, i);
    }
}
