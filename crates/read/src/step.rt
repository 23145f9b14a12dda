// What the recursions share: a table with an entry for each node, which holds the node's answer once it is known.
ghost use Rattle.std.specs.Prelude.{◌≡◌, ◌+◌, ◌≤◌, length};
ghost use Rattle.layout.specs.Words.{offset, expression_at};
ghost use Rattle.read.specs.Tables.{operands_of, step_at};

use circuit::place::expression_at;
use layout::node::{Expression, Op};

// No degree that is told apart, no bit and no element of a field.
pub const UNKNOWN: u64 = 18446744073709551615;

// An operation, and its two operands.
pub fn operands_of(e: Expression) -> Option<(Op, u64, u64)>
    ensures { result ≡ operands_of e }
{
    match e {
        Expression::Base(_) => None,
        Expression::Extension(_) => None,
        Expression::Challenge(_) => None,
        Expression::Operation(o, l, r) => Some((o, l, r)),
        Expression::Input(_) => None,
    }
}

// What a recursion does at node i, whose entry begins with the word w: nothing where the entry is the answer, else that comes from the operands'.
pub(crate) fn step_at(m: &[u64], i: u64, w: u64) -> Option<(Op, u64, u64)>
    requires { offset i + 6 ≤ length m.now }
    ensures { result ≡ step_at m.now i w }
{
    if w != UNKNOWN {
        return None;
    }
    operands_of(expression_at(m, i))
}
