// The calls of building on a circuit that is known to be one, with class tables that fit it.
ghost use Rattle.std.specs.Prelude.{List, [], ◌∷◌};
ghost use Rattle.layout.specs.NotCircuit.{bad_id};
ghost use Rattle.building.specs.Building.{find_or_make};
ghost use Rattle.building.specs.Calls.{building, input_call, challenge_call, base_call, extension_call};
ghost use Rattle.build.specs.Inner.{Buildable, Makable};
ghost use Rattle.build_calls.specs.Answers.{ending, requested};
ghost use Rattle.kept.specs.Keeps.{KeptAnswer, Askable};

use arithmetic::Triple;
use build::constants::constant;
use build::steps::find_or_make;
use build_calls::calls;
use build_calls::calls::{answered, step};
use circuit::check::{bad_index, bad_row, bad_word, bad_words};
use circuit::place::column_of;
use layout::node::{Expression, Position};
use layout::refusal::Refusal;

fn leaf(
    m: &mut [u64],
    numbers: &mut [u64],
    table: &mut [u64],
    least: &mut [u64],
    e: Expression,
) -> Result<u64, Refusal>
    requires { Makable m.old numbers.old table.old least.old e }
    ensures { KeptAnswer (ending m.old (find_or_make m.old e)) result m.new numbers.new table.new least.new }
{
    answered(find_or_make(m, numbers, table, least, e))
}

pub(crate) fn input(
    m: &mut [u64],
    numbers: &mut [u64],
    table: &mut [u64],
    least: &mut [u64],
    q: Position,
) -> Result<u64, Refusal>
    requires { Buildable m.old numbers.old table.old least.old }
    ensures { KeptAnswer (input_call m.old q) result m.new numbers.new table.new least.new }
{
    if bad_row(m, q) {
        return Err(Refusal::BadRow);
    }
    if bad_index(column_of(q)) {
        return Err(Refusal::BadIndex);
    }
    leaf(m, numbers, table, least, Expression::Input(q))
}

pub(crate) fn challenge(
    m: &mut [u64],
    numbers: &mut [u64],
    table: &mut [u64],
    least: &mut [u64],
    k: u64,
) -> Result<u64, Refusal>
    requires { Buildable m.old numbers.old table.old least.old }
    ensures { KeptAnswer (challenge_call m.old k) result m.new numbers.new table.new least.new }
{
    if bad_index(k) {
        return Err(Refusal::BadIndex);
    }
    leaf(m, numbers, table, least, Expression::Challenge(k))
}

pub(crate) fn base(
    m: &mut [u64],
    numbers: &mut [u64],
    table: &mut [u64],
    least: &mut [u64],
    w: u64,
) -> Result<u64, Refusal>
    requires { Buildable m.old numbers.old table.old least.old }
    ensures { KeptAnswer (base_call m.old w) result m.new numbers.new table.new least.new }
{
    if bad_word(w) {
        return Err(Refusal::BadWord);
    }
    leaf(m, numbers, table, least, Expression::Base(w))
}

pub(crate) fn extension(
    m: &mut [u64],
    numbers: &mut [u64],
    table: &mut [u64],
    least: &mut [u64],
    x: Triple,
) -> Result<u64, Refusal>
    requires { Buildable m.old numbers.old table.old least.old }
    ensures { KeptAnswer (extension_call m.old x) result m.new numbers.new table.new least.new }
{
    if bad_words(x) {
        return Err(Refusal::BadWord);
    }
    leaf(m, numbers, table, least, constant(x))
}

// What is asked of two nodes, or of one as both.
pub(crate) fn on_nodes(
    m: &mut [u64],
    numbers: &mut [u64],
    table: &mut [u64],
    least: &mut [u64],
    a: u64,
    b: u64,
    asked: calls::Request,
) -> Result<u64, Refusal>
    requires { Askable m.old numbers.old table.old least.old a b asked }
    ensures { KeptAnswer (building m.old ((2, bad_id m.old (a ∷ b ∷ [])) ∷ []) (requested m.old asked)) result m.new numbers.new table.new least.new }
{
    if m[1] <= a {
        return Err(Refusal::BadId);
    }
    if m[1] <= b {
        return Err(Refusal::BadId);
    }
    answered(step(m, numbers, table, least, asked))
}
