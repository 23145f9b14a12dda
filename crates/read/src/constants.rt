// The tests for 0, 1 and -1.
ghost use Rattle.std.specs.Prelude.{◌≡◌};
ghost use Rattle.reading.specs.Calls.{constant_call, is_zero_call, is_one_call, is_minus_one_call};
ghost use Rattle.reading.specs.Answers.{told_test};

use circuit::calls::is_circuit;
use circuit::constants::is_constant;
use field::base::MINUS_ONE;
use layout::refusal::Refusal;

fn constant_test(m: &[u64], i: u64, w: u64) -> Result<bool, Refusal>
    ensures { told_test result ≡ constant_call w m.now i }
{
    if !is_circuit(m) {
        return Err(Refusal::NotCircuit);
    }
    if m[1] <= i {
        return Err(Refusal::BadId);
    }
    Ok(is_constant(w, m, i))
}

pub fn is_zero(m: &[u64], i: u64) -> Result<bool, Refusal>
    ensures { told_test result ≡ is_zero_call m.now i }
{
    constant_test(m, i, 0)
}

pub fn is_one(m: &[u64], i: u64) -> Result<bool, Refusal>
    ensures { told_test result ≡ is_one_call m.now i }
{
    constant_test(m, i, 1)
}

pub fn is_minus_one(m: &[u64], i: u64) -> Result<bool, Refusal>
    ensures { told_test result ≡ is_minus_one_call m.now i }
{
    constant_test(m, i, MINUS_ONE)
}
