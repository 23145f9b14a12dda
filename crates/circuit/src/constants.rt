// The test behind those for 0, 1 and -1.
ghost use Rattle.std.specs.Prelude.{◌≡◌, ◌+◌, ◌≤◌, length};
ghost use Rattle.layout.specs.Words.{offset, constant_is, is_constant};

use crate::place::expression_at;
use layout::node::Expression;

// Whether an expression is the base constant w. No extension constant of a circuit is one: those that unlift aren't stored.
fn constant_is(w: u64, e: Expression) -> bool
    ensures { result ≡ constant_is w e }
{
    match e {
        Expression::Base(v) => v == w,
        Expression::Extension(_) => false,
        Expression::Challenge(_) => false,
        Expression::Operation(_, _, _) => false,
        Expression::Input(_) => false,
    }
}

// Whether node i is the constant w.
pub fn is_constant(w: u64, m: &[u64], i: u64) -> bool
    requires { offset i + 6 ≤ length m.now }
    ensures { result ≡ is_constant w m.now i }
{
    constant_is(w, expression_at(m, i))
}
