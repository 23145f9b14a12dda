// Negate, subtract and sum may make several nodes. Where there turns out to be no room for all of them, what was written is put back, so that
// a refusal leaves every word as it was, free places included.
ghost use Rattle.std.specs.Prelude.{◌≡◌, ◌≤◌, length};
ghost use Rattle.layout.specs.Words.{used, offset};
ghost use Rattle.building.specs.Building.{negated, subtracted, summed};
ghost use Rattle.build.specs.Inner.{Operable, Summable, Buildable, Step, Stepped, Tried};
ghost use Rattle.build.specs.Saved.{Saved, Restorable, Restored, Classable};

use crate::steps::{find_or_make, operate};
use circuit::check::{limit_of, order_of};
use circuit::place::{HEADER, PLACE};
use classes::find::class_tables;
use field::base::MINUS_ONE;
use layout::node::{Expression, Op};

// Saves the words of the free places, as far as there are words and room for them.
fn save(m: &[u64], saved: &mut [u64])
    requires { offset (used m.now) ≤ length m.now }
    ensures { Saved m.now saved.new }
{
    let at = HEADER + PLACE * (m[1] as usize);
    let n = saved.len().min(m.len() - at);
    saved[..n].copy_from_slice(&m[at..at + n]);
}

// Puts back the used count u, and what was saved of the places that were taken since.
fn restore(m: &mut [u64], saved: &[u64], u: u64)
    requires { Restorable m.old saved.now u }
    ensures { Restored m.old saved.now u m.new }
{
    let at = HEADER + PLACE * (u as usize);
    let n = PLACE * ((m[1] - u) as usize);
    m[at..at + n].copy_from_slice(&saved[..n]);
    m[1] = u;
}

// The tables of a circuit, from nothing.
pub fn class_anew(m: &[u64], numbers: &mut [u64], table: &mut [u64], least: &mut [u64])
    requires { Classable m.now numbers.old table.old least.old }
    ensures { Buildable m.now numbers.new table.new least.new }
{
    let mut order = [0u64; 4096];
    let mut rank = [0u64; 4096];
    order_of(m, &mut order, &mut rank);
    class_tables(m, &order, &rank, numbers, table, least);
}

// (-1)·a: the leaf -1 is made first, even where nothing else is. It may have been made when there is no room for the product.
fn try_negate(
    m: &mut [u64],
    numbers: &mut [u64],
    table: &mut [u64],
    least: &mut [u64],
    a: u64,
) -> Option<u64>
    requires { Operable m.old numbers.old table.old least.old a a }
    ensures { Tried 1 m.old (negated m.old a) result m.new numbers.new table.new least.new }
{
    let minus = find_or_make(m, numbers, table, least, Expression::Base(MINUS_ONE))?;
    operate(m, numbers, table, least, Op::Multiply, minus, a)
}

// a + (-b), -b first. Two nodes may have been made when there is no room for the sum.
fn try_subtract(
    m: &mut [u64],
    numbers: &mut [u64],
    table: &mut [u64],
    least: &mut [u64],
    a: u64,
    b: u64,
) -> Option<u64>
    requires { Operable m.old numbers.old table.old least.old a b }
    ensures { Tried 2 m.old (subtracted m.old a b) result m.new numbers.new table.new least.new }
{
    let minus = try_negate(m, numbers, table, least, b)?;
    operate(m, numbers, table, least, Op::Add, a, minus)
}

// From the left.
fn try_sum(
    m: &mut [u64],
    numbers: &mut [u64],
    table: &mut [u64],
    least: &mut [u64],
    ids: &[u64],
) -> Option<u64>
    requires { Summable m.old numbers.old table.old least.old ids.now }
    ensures { Tried (length ids.now) m.old (summed m.old ids.now) result m.new numbers.new table.new least.new }
{
    let mut i = ids[0];
    for &id in &ids[1..] {
        i = operate(m, numbers, table, least, Op::Add, i, id)?;
    }
    Some(i)
}

// -a.
pub fn negate(
    m: &mut [u64],
    numbers: &mut [u64],
    table: &mut [u64],
    least: &mut [u64],
    a: u64,
) -> Option<u64>
    requires { Operable m.old numbers.old table.old least.old a a }
    ensures { Stepped m.old (negated m.old a) result m.new numbers.new table.new least.new }
{
    let u = m[1];
    let mut saved = [0u64; PLACE];
    save(m, &mut saved);
    if let Some(i) = try_negate(m, numbers, table, least, a) {
        return Some(i);
    }
    restore(m, &saved, u);
    class_anew(m, numbers, table, least);
    None
}

// a - b.
pub fn subtract(
    m: &mut [u64],
    numbers: &mut [u64],
    table: &mut [u64],
    least: &mut [u64],
    a: u64,
    b: u64,
) -> Option<u64>
    requires { Operable m.old numbers.old table.old least.old a b }
    ensures { Stepped m.old (subtracted m.old a b) result m.new numbers.new table.new least.new }
{
    let u = m[1];
    let mut saved = [0u64; 12];
    save(m, &mut saved);
    if let Some(i) = try_subtract(m, numbers, table, least, a, b) {
        return Some(i);
    }
    restore(m, &saved, u);
    class_anew(m, numbers, table, least);
    None
}

// A sum that may find that there is no room. What it saves is large, so the tables are made anew elsewhere.
fn sum_or_back(
    m: &mut [u64],
    numbers: &mut [u64],
    table: &mut [u64],
    least: &mut [u64],
    ids: &[u64],
) -> Option<u64>
    requires { Summable m.old numbers.old table.old least.old ids.now }
    ensures { Step (m.new ≡ m.old) m.old (summed m.old ids.now) result m.new numbers.new table.new least.new }
{
    let u = m[1];
    let mut saved = [0u64; 24576];
    save(m, &mut saved);
    if let Some(i) = try_sum(m, numbers, table, least, ids) {
        return Some(i);
    }
    restore(m, &saved, u);
    None
}

// The sum of one id or more.
pub fn sum(
    m: &mut [u64],
    numbers: &mut [u64],
    table: &mut [u64],
    least: &mut [u64],
    ids: &[u64],
) -> Option<u64>
    requires { Summable m.old numbers.old table.old least.old ids.now }
    ensures { Stepped m.old (summed m.old ids.now) result m.new numbers.new table.new least.new }
{
    if ids.len() <= (limit_of(m) - m[1]) as usize {
        return try_sum(m, numbers, table, least, ids);
    }
    if let Some(i) = sum_or_back(m, numbers, table, least, ids) {
        return Some(i);
    }
    class_anew(m, numbers, table, least);
    None
}
