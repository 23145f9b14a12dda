// Class numbers: nodes that are equal by structure have one number. Each node's key is its expression over its operands' numbers.
ghost use Rattle.std.specs.Prelude.{◌≡◌, ℕ, ◌+◌, ◌<◌, ◌≤◌, length, get_or};
ghost use Rattle.layout.specs.Words.{used};
ghost use Rattle.classes.specs.Table.{listed};
ghost use Rattle.classes.specs.Numbers.{over, key_of, itself, Numbered, Enterable, Entered, Orderly};

use crate::table::{HEADS, intern};
use circuit::place::{FourWords, entry, expression_at, words_of};
use layout::node::Expression;

// A number for each of 4,096 nodes.
pub const NUMBERS: usize = 4096;

// An expression over its operands' numbers.
fn over_numbers(numbers: &[u64], e: Expression) -> Expression
    ensures { result ≡ over numbers.now e }
{
    match e {
        Expression::Base(w) => Expression::Base(w),
        Expression::Extension(x) => Expression::Extension(x),
        Expression::Challenge(k) => Expression::Challenge(k),
        Expression::Operation(o, l, r) => Expression::Operation(
            o,
            entry(numbers, l),
            entry(numbers, r),
        ),
        Expression::Input(q) => Expression::Input(q),
    }
}

// The key of an expression.
pub(crate) fn key_of(numbers: &[u64], e: Expression) -> FourWords
    ensures { listed result ≡ key_of numbers.now e }
{
    words_of(over_numbers(numbers, e))
}

// A node, whose operands have their numbers, gets its own.
pub(crate) fn enter_one(m: &[u64], i: u64, numbers: &mut [u64], table: &mut [u64])
    requires { Enterable m.now numbers.old table.old i }
    ensures { Entered m.now numbers.old table.old numbers.new table.new i }
{
    let e = expression_at(m, i);
    let w = key_of(numbers, e);
    let v = intern(table, w);
    let k = i as usize;
    numbers[k] = v;
}

// The first n words become 0.
pub(crate) fn blank(s: &mut [u64], n: usize)
    requires { n ≤ length s.old }
    ensures { (j : ℕ) → j < n → get_or s.new j 0 ≡ 0 }
{
    s[..n].fill(0);
}

// Each node gets its number, after its operands. The rank is not read: that the order undoes it is what makes each node's turn come.
pub(crate) fn number_all(
    m: &[u64],
    order: &[u64],
    rank: &[u64],
    numbers: &mut [u64],
    table: &mut [u64],
)
    requires { Orderly m.now order.now rank.now numbers.old table.old }
    ensures { Numbered m.now itself (used m.now) numbers.new table.new }
{
    blank(table, HEADS);
    for q in 0..m[1] {
        enter_one(m, order[q as usize], numbers, table);
    }
}
