// What a listed node has to be: its current-row column plus -1 times an expression, in either operand order.
ghost use Rattle.std.specs.Prelude.{◌≡◌, false, ◌+◌, ◌<◌, ◌≤◌, length};
ghost use Rattle.layout.specs.declared.node.Op.TheVariants.{Add, Multiply};
ghost use Rattle.layout.specs.declared.node.Expression.TheVariants.{Operation};
ghost use Rattle.layout.specs.Words.{used, offset};
ghost use Rattle.layout.specs.NotCircuit.{not_circuit};
ghost use Rattle.filling.specs.Constraints.{is_input, minus_times, column_plus, expression_of};
ghost use Rattle.fillable.specs.Forms.{Operands};

use circuit::constants::is_constant;
use circuit::place::{expression_at, words_of};
use classes::table::same_words;
use field::base::MINUS_ONE;
use layout::node::{Expression, Op, Position};

// Whether node i is the input y.
fn is_input(m: &[u64], y: Position, i: u64) -> bool
    requires { offset i + 6 ≤ length m.now }
    ensures { result ≡ is_input m.now y i }
{
    let wanted = words_of(Expression::Input(y));
    same_words(words_of(expression_at(m, i)), wanted)
}

// Of the product of l and r, the other factor if one is -1.
fn minus_product(m: &[u64], l: u64, r: u64) -> Option<u64>
    requires { Operands m.now (Operation Multiply l r) }
    ensures { result ≡ minus_times m.now (Operation Multiply l r) }
{
    if is_constant(MINUS_ONE, m, l) {
        return Some(r);
    }
    if is_constant(MINUS_ONE, m, r) {
        return Some(l);
    }
    None
}

// Of -1 times an expression, that expression.
fn minus_times(m: &[u64], e: Expression) -> Option<u64>
    requires { Operands m.now e }
    ensures { result ≡ minus_times m.now e }
{
    match e {
        Expression::Base(_) => None,
        Expression::Extension(_) => None,
        Expression::Challenge(_) => None,
        Expression::Operation(o, l, r) => match o {
            Op::Add => None,
            Op::Multiply => minus_product(m, l, r),
        },
        Expression::Input(_) => None,
    }
}

// Of the sum of l and r, the expression if one of them is the input y.
fn column_sum(m: &[u64], y: Position, l: u64, r: u64) -> Option<u64>
    requires { Operands m.now (Operation Add l r) }
    ensures { result ≡ column_plus m.now y (Operation Add l r) }
{
    if is_input(m, y, l) {
        return minus_times(m, expression_at(m, r));
    }
    if is_input(m, y, r) {
        return minus_times(m, expression_at(m, l));
    }
    None
}

// Of the input y plus -1 times an expression, that expression.
fn column_plus(m: &[u64], y: Position, e: Expression) -> Option<u64>
    requires { Operands m.now e }
    ensures { result ≡ column_plus m.now y e }
{
    match e {
        Expression::Base(_) => None,
        Expression::Extension(_) => None,
        Expression::Challenge(_) => None,
        Expression::Operation(o, l, r) => match o {
            Op::Add => column_sum(m, y, l, r),
            Op::Multiply => None,
        },
        Expression::Input(_) => None,
    }
}

// The expression that a listed node q gives the column y.
pub fn expression_of(m: &[u64], y: Position, q: u64) -> Option<u64>
    requires { (not_circuit m.now ≡ false) × (q < used m.now) }
    ensures { result ≡ expression_of m.now y q }
{
    column_plus(m, y, expression_at(m, q))
}
