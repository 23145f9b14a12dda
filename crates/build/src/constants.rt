// Constants by value: what a node's is, the operand that an operation gives where it needs no node, and the fold of two.
ghost use Rattle.std.specs.Prelude.{◌≡◌, ◌+◌, ◌≤◌, length};
ghost use Rattle.layout.specs.Words.{offset, constant_of, constant, apply};
ghost use Rattle.build.specs.Inner.{simplified};

use arithmetic::Triple;
use circuit::constants::is_constant;
use field::extension;
use layout::node::{Expression, Op};

// The value of a constant, if it is one.
pub(crate) fn constant_of(e: Expression) -> Option<Triple>
    ensures { result ≡ constant_of e }
{
    match e {
        Expression::Base(w) => Some(extension::lift(w)),
        Expression::Extension(x) => Some(x),
        Expression::Challenge(_) => None,
        Expression::Operation(_, _, _) => None,
        Expression::Input(_) => None,
    }
}

// An extension constant that unlifts becomes a base constant.
pub fn constant(x: Triple) -> Expression
    ensures { result ≡ constant x }
{
    if extension::unlifts(x) {
        Expression::Base(x.c0)
    } else {
        Expression::Extension(x)
    }
}

pub(crate) fn apply(o: Op, x: Triple, y: Triple) -> Triple
    ensures { result ≡ apply o x y }
{
    match o {
        Op::Add => extension::add(x, y),
        Op::Multiply => extension::multiply(x, y),
    }
}

// Right zero gives left; left zero gives right.
fn simplified_sum(m: &[u64], l: u64, r: u64) -> Option<u64>
    requires { (offset l + 6 ≤ length m.now) × (offset r + 6 ≤ length m.now) }
    ensures { result ≡ simplified m.now Op.Add l r }
{
    if is_constant(0, m, r) {
        return Some(l);
    }
    if is_constant(0, m, l) {
        return Some(r);
    }
    None
}

// Right one gives left; left one gives right; right zero gives right; left zero gives left.
fn simplified_product(m: &[u64], l: u64, r: u64) -> Option<u64>
    requires { (offset l + 6 ≤ length m.now) × (offset r + 6 ≤ length m.now) }
    ensures { result ≡ simplified m.now Op.Multiply l r }
{
    if is_constant(1, m, r) {
        return Some(l);
    }
    if is_constant(1, m, l) {
        return Some(r);
    }
    if is_constant(0, m, r) {
        return Some(r);
    }
    if is_constant(0, m, l) {
        return Some(l);
    }
    None
}

// The operand that an operation gives where it needs no node.
pub(crate) fn simplified(m: &[u64], o: Op, l: u64, r: u64) -> Option<u64>
    requires { (offset l + 6 ≤ length m.now) × (offset r + 6 ≤ length m.now) }
    ensures { result ≡ simplified m.now o l r }
{
    match o {
        Op::Add => simplified_sum(m, l, r),
        Op::Multiply => simplified_product(m, l, r),
    }
}
