// Building in a circuit that is known to be one, with the class tables that go along with it. Each step answers document 01's id and leaves
// document 01's circuit, with tables that fit it; or none where there is no room, and then it has changed nothing.
ghost use Rattle.layout.specs.Words.{used, made};
ghost use Rattle.building.specs.Building.{built, find_or_make, either_order, folding, operate};
ghost use Rattle.build.specs.Inner.{Makable, Operable, Stepped};

use crate::constants::{apply, constant, constant_of, simplified};
use circuit::check::limit_of;
use circuit::place::{expression_at, make};
use classes::find::{find, join};
use layout::node::{Expression, Op};

// A new node in the next place, which joins the tables.
fn make_node(
    m: &mut [u64],
    numbers: &mut [u64],
    table: &mut [u64],
    least: &mut [u64],
    e: Expression,
) -> Option<u64>
    requires { Makable m.old numbers.old table.old least.old e }
    ensures { Stepped m.old (built (made m.old e) (used m.old)) result m.new numbers.new table.new least.new }
{
    let u = m[1];
    let needed = u + 1;
    if limit_of(m) < needed {
        return None;
    }
    make(m, e);
    join(m, numbers, table, least);
    Some(u)
}

// The least registered node that is equal by structure, else a new one.
pub fn find_or_make(
    m: &mut [u64],
    numbers: &mut [u64],
    table: &mut [u64],
    least: &mut [u64],
    e: Expression,
) -> Option<u64>
    requires { Makable m.old numbers.old table.old least.old e }
    ensures { Stepped m.old (find_or_make m.old e) result m.new numbers.new table.new least.new }
{
    if let Some(i) = find(m, numbers, table, least, e) {
        return Some(i);
    }
    make_node(m, numbers, table, least, e)
}

// Of an operation, (op, right, left) is looked for first.
fn either_order(
    m: &mut [u64],
    numbers: &mut [u64],
    table: &mut [u64],
    least: &mut [u64],
    o: Op,
    l: u64,
    r: u64,
) -> Option<u64>
    requires { Operable m.old numbers.old table.old least.old l r }
    ensures { Stepped m.old (either_order m.old o l r) result m.new numbers.new table.new least.new }
{
    if let Some(i) = find(m, numbers, table, least, Expression::Operation(o, r, l)) {
        return Some(i);
    }
    find_or_make(m, numbers, table, least, Expression::Operation(o, l, r))
}

// Two constants fold to a constant leaf; their own leaves stay.
fn folding(
    m: &mut [u64],
    numbers: &mut [u64],
    table: &mut [u64],
    least: &mut [u64],
    o: Op,
    l: u64,
    r: u64,
) -> Option<u64>
    requires { Operable m.old numbers.old table.old least.old l r }
    ensures { Stepped m.old (folding m.old o l r) result m.new numbers.new table.new least.new }
{
    let left = constant_of(expression_at(m, l));
    let right = constant_of(expression_at(m, r));
    match left {
        Some(x) => match right {
            Some(y) => find_or_make(m, numbers, table, least, constant(apply(o, x, y))),
            None => either_order(m, numbers, table, least, o, l, r),
        },
        None => either_order(m, numbers, table, least, o, l, r),
    }
}

// Add or multiply.
pub fn operate(
    m: &mut [u64],
    numbers: &mut [u64],
    table: &mut [u64],
    least: &mut [u64],
    o: Op,
    l: u64,
    r: u64,
) -> Option<u64>
    requires { Operable m.old numbers.old table.old least.old l r }
    ensures { Stepped m.old (operate m.old o l r) result m.new numbers.new table.new least.new }
{
    if let Some(i) = simplified(m, o, l, r) {
        return Some(i);
    }
    folding(m, numbers, table, least, o, l, r)
}
