// Leaves: document 01, "Building". Each answers an id.
ghost use Rattle.std.specs.Prelude.{◌≡◌};
ghost use Rattle.arithmetic.specs.Extension.{triple};
ghost use Rattle.building.specs.Calls.{challenge_call, base_call, zero_call, one_call, minus_one_call, extension_call};
ghost use Rattle.abi.specs.Answers.{Answered, as_number};
ghost use Rattle.abi.specs.Numbers.{positioned, input_by_number};

use crate::answers::number;
use arithmetic::Triple;
use build_calls::calls;
use circuit::calls::is_circuit;
use layout::node::Position;
use layout::refusal::Refusal;

fn position(row: u64, column: u64) -> Position
    ensures { result ≡ positioned row column }
{
    if row == 0 {
        return Position::Main(column);
    }
    if row == 1 {
        return Position::Aux(column);
    }
    if row == 2 {
        return Position::NextMain(column);
    }
    Position::NextAux(column)
}

// An input: row 0 main, 1 auxiliary, 2 next main, 3 next auxiliary.
#[unsafe(no_mangle)]
pub extern "C" fn atz_input(m: &mut [u64], row: u64, column: u64, out: &mut [u64]) -> u64
    ensures { Answered as_number (input_by_number m.old row column) result out.old out.new m.new }
{
    if row < 4 {
        return number(out, calls::input(m, position(row, column)));
    }
    if !is_circuit(m) {
        return number(out, Err(Refusal::NotCircuit));
    }
    number(out, Err(Refusal::BadRow))
}

// A challenge.
#[unsafe(no_mangle)]
pub extern "C" fn atz_challenge(m: &mut [u64], index: u64, out: &mut [u64]) -> u64
    ensures { Answered as_number (challenge_call m.old index) result out.old out.new m.new }
{
    number(out, calls::challenge(m, index))
}

// A base constant.
#[unsafe(no_mangle)]
pub extern "C" fn atz_base_constant(m: &mut [u64], word: u64, out: &mut [u64]) -> u64
    ensures { Answered as_number (base_call m.old word) result out.old out.new m.new }
{
    number(out, calls::base_constant(m, word))
}

// The constants 0, 1 and -1.
#[unsafe(no_mangle)]
pub extern "C" fn atz_zero(m: &mut [u64], out: &mut [u64]) -> u64
    ensures { Answered as_number (zero_call m.old) result out.old out.new m.new }
{
    number(out, calls::zero(m))
}

#[unsafe(no_mangle)]
pub extern "C" fn atz_one(m: &mut [u64], out: &mut [u64]) -> u64
    ensures { Answered as_number (one_call m.old) result out.old out.new m.new }
{
    number(out, calls::one(m))
}

#[unsafe(no_mangle)]
pub extern "C" fn atz_minus_one(m: &mut [u64], out: &mut [u64]) -> u64
    ensures { Answered as_number (minus_one_call m.old) result out.old out.new m.new }
{
    number(out, calls::minus_one(m))
}

// An extension constant.
#[unsafe(no_mangle)]
pub extern "C" fn atz_extension_constant(
    m: &mut [u64],
    c0: u64,
    c1: u64,
    c2: u64,
    out: &mut [u64],
) -> u64
    ensures { Answered as_number (extension_call m.old (triple c0 c1 c2)) result out.old out.new m.new }
{
    number(
        out,
        calls::extension_constant(
            m,
            Triple {
                c0: c0,
                c1: c1,
                c2: c2,
            },
        ),
    )
}
