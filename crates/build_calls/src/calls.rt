// The public calls of building. They ask nothing of the words that are lent: all are checked, each time. The tests stand in document 01's order;
// FULL, which comes last, is the inner forms' answer.
ghost use Rattle.std.specs.Prelude.{◌≡◌, List, [], ◌∷◌, ℕ, ◌<◌};
ghost use Rattle.layout.specs.Words.{used};
ghost use Rattle.layout.specs.NotCircuit.{bad_id};
ghost use Rattle.building.specs.Building.{summed};
ghost use Rattle.building.specs.Calls.{building, input_call, challenge_call, base_call, zero_call, one_call, minus_one_call, extension_call, operation_call, subtract_call, negate_call, sum_call};
ghost use Rattle.build.specs.Inner.{Stepped};
ghost use Rattle.building.specs.Told.{told_id};
ghost use Rattle.build_calls.specs.Answers.{answer_of, ending, requested, Good, Requestable, Grantable, Addable};

use crate::leaves::leaf;
use arithmetic::Triple;
use build::constants::constant;
use build::several;
use build::steps::operate;
use circuit::check::{bad_index, bad_row, bad_word, bad_words, check};
use circuit::place::column_of;
use classes::find::class_tables;
use classes::table::TABLE;
use field::base::MINUS_ONE;
use layout::node::{Expression, Op, Position};
use layout::refusal::Refusal;
use paths::ids::bad_id;

// What is asked of nodes, once the tests of its own have passed. A sum is asked by a list of ids.
#[derive(Clone, Copy)]
pub enum Request {
    Operation(Op, u64, u64),
    Negate(u64),
    Subtract(u64, u64),
}

// An inner form's answer as a call's.
pub fn answered(made: Option<u64>) -> Result<u64, Refusal>
    ensures { result ≡ answer_of made }
{
    made.ok_or(Refusal::Full)
}

// The inner form of a request, with class tables that fit.
pub fn step(
    m: &mut [u64],
    numbers: &mut [u64],
    table: &mut [u64],
    least: &mut [u64],
    request: Request,
) -> Option<u64>
    requires { Requestable m.old numbers.old table.old least.old request }
    ensures { Stepped m.old (requested m.old request) result m.new numbers.new table.new least.new }
{
    match request {
        Request::Operation(o, l, r) => operate(m, numbers, table, least, o, l, r),
        Request::Negate(a) => several::negate(m, numbers, table, least, a),
        Request::Subtract(a, b) => several::subtract(m, numbers, table, least, a, b),
    }
}

// What is left of a call on words that are a circuit: its tables, and the step.
fn granted(m: &mut [u64], order: &[u64], rank: &[u64], request: Request) -> Result<u64, Refusal>
    requires { Grantable m.old order.now rank.now request }
    ensures { told_id result m.new ≡ ending m.old (requested m.old request) }
{
    let mut numbers = [0u64; 4096];
    let mut table = [0u64; TABLE];
    let mut least = [0u64; 4097];
    class_tables(m, order, rank, &mut numbers, &mut table, &mut least);
    answered(step(m, &mut numbers, &mut table, &mut least, request))
}

fn granted_sum(m: &mut [u64], order: &[u64], rank: &[u64], ids: &[u64]) -> Result<u64, Refusal>
    requires { Addable m.old order.now rank.now ids.now }
    ensures { told_id result m.new ≡ ending m.old (summed m.old ids.now) }
{
    let mut numbers = [0u64; 4096];
    let mut table = [0u64; TABLE];
    let mut least = [0u64; 4097];
    class_tables(m, order, rank, &mut numbers, &mut table, &mut least);
    answered(several::sum(m, &mut numbers, &mut table, &mut least, ids))
}

// An input.
pub fn input(m: &mut [u64], q: Position) -> Result<u64, Refusal>
    ensures { told_id result m.new ≡ input_call m.old q }
{
    let mut order = [0u64; 4096];
    let mut rank = [0u64; 4096];
    if !check(m, &mut order, &mut rank) {
        return Err(Refusal::NotCircuit);
    }
    if bad_row(m, q) {
        return Err(Refusal::BadRow);
    }
    if bad_index(column_of(q)) {
        return Err(Refusal::BadIndex);
    }
    leaf(m, Expression::Input(q))
}

// A challenge index.
pub fn challenge(m: &mut [u64], k: u64) -> Result<u64, Refusal>
    ensures { told_id result m.new ≡ challenge_call m.old k }
{
    let mut order = [0u64; 4096];
    let mut rank = [0u64; 4096];
    if !check(m, &mut order, &mut rank) {
        return Err(Refusal::NotCircuit);
    }
    if bad_index(k) {
        return Err(Refusal::BadIndex);
    }
    leaf(m, Expression::Challenge(k))
}

// A base constant.
pub fn base_constant(m: &mut [u64], w: u64) -> Result<u64, Refusal>
    ensures { told_id result m.new ≡ base_call m.old w }
{
    let mut order = [0u64; 4096];
    let mut rank = [0u64; 4096];
    if !check(m, &mut order, &mut rank) {
        return Err(Refusal::NotCircuit);
    }
    if bad_word(w) {
        return Err(Refusal::BadWord);
    }
    leaf(m, Expression::Base(w))
}

pub fn zero(m: &mut [u64]) -> Result<u64, Refusal>
    ensures { told_id result m.new ≡ zero_call m.old }
{
    base_constant(m, 0)
}

pub fn one(m: &mut [u64]) -> Result<u64, Refusal>
    ensures { told_id result m.new ≡ one_call m.old }
{
    base_constant(m, 1)
}

pub fn minus_one(m: &mut [u64]) -> Result<u64, Refusal>
    ensures { told_id result m.new ≡ minus_one_call m.old }
{
    base_constant(m, MINUS_ONE)
}

// An extension constant.
pub fn extension_constant(m: &mut [u64], x: Triple) -> Result<u64, Refusal>
    ensures { told_id result m.new ≡ extension_call m.old x }
{
    let mut order = [0u64; 4096];
    let mut rank = [0u64; 4096];
    if !check(m, &mut order, &mut rank) {
        return Err(Refusal::NotCircuit);
    }
    if bad_words(x) {
        return Err(Refusal::BadWord);
    }
    leaf(m, constant(x))
}

// What is asked of two nodes, or of one as both.
fn on_nodes(m: &mut [u64], a: u64, b: u64, request: Request) -> Result<u64, Refusal>
    requires { (m : List ℕ) → a < used m → b < used m → Good m request }
    ensures { told_id result m.new ≡ building m.old ((2, bad_id m.old (a ∷ b ∷ [])) ∷ []) (requested m.old request) }
{
    let mut order = [0u64; 4096];
    let mut rank = [0u64; 4096];
    if !check(m, &mut order, &mut rank) {
        return Err(Refusal::NotCircuit);
    }
    if m[1] <= a {
        return Err(Refusal::BadId);
    }
    if m[1] <= b {
        return Err(Refusal::BadId);
    }
    granted(m, &order, &rank, request)
}

// Add or multiply.
pub fn operation(m: &mut [u64], o: Op, l: u64, r: u64) -> Result<u64, Refusal>
    ensures { told_id result m.new ≡ operation_call m.old o l r }
{
    on_nodes(m, l, r, Request::Operation(o, l, r))
}

// a - b
pub fn subtract(m: &mut [u64], a: u64, b: u64) -> Result<u64, Refusal>
    ensures { told_id result m.new ≡ subtract_call m.old a b }
{
    on_nodes(m, a, b, Request::Subtract(a, b))
}

// -a
pub fn negate(m: &mut [u64], a: u64) -> Result<u64, Refusal>
    ensures { told_id result m.new ≡ negate_call m.old a }
{
    on_nodes(m, a, a, Request::Negate(a))
}

// The sum of a list of ids, from the left.
pub fn sum(m: &mut [u64], ids: &[u64]) -> Result<u64, Refusal>
    ensures { told_id result m.new ≡ sum_call m.old ids.now }
{
    let mut order = [0u64; 4096];
    let mut rank = [0u64; 4096];
    if !check(m, &mut order, &mut rank) {
        return Err(Refusal::NotCircuit);
    }
    if bad_id(m, ids) {
        return Err(Refusal::BadId);
    }
    if ids.len() == 0 {
        return Err(Refusal::Empty);
    }
    granted_sum(m, &order, &rank, ids)
}
