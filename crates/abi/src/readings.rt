// Readings of a node or of a list of roots: document 01, "Readings". They change nothing but `out`.
ghost use Rattle.classes.specs.Classes.{equal_call};
ghost use Rattle.reading.specs.Calls.{is_zero_call, is_one_call, is_minus_one_call, degree_call, highest_call, base_test_call, evaluate_call, visible_call};
ghost use Rattle.abi.specs.Answers.{Answered, as_number, as_bit, as_degree, as_triple};

use crate::answers::{degree, number, test, value};

// Whether two nodes are equal by structure.
#[unsafe(no_mangle)]
pub extern "C" fn atz_equal(m: &[u64], i: u64, j: u64, out: &mut [u64]) -> u64
    ensures { Answered as_bit (equal_call m.now i j) result out.old out.new tt }
{
    test(out, classes::calls::equal(m, i, j))
}

// The tests for the constants 0, 1 and -1.
#[unsafe(no_mangle)]
pub extern "C" fn atz_is_zero(m: &[u64], id: u64, out: &mut [u64]) -> u64
    ensures { Answered as_bit (is_zero_call m.now id) result out.old out.new tt }
{
    test(out, read::constants::is_zero(m, id))
}

#[unsafe(no_mangle)]
pub extern "C" fn atz_is_one(m: &[u64], id: u64, out: &mut [u64]) -> u64
    ensures { Answered as_bit (is_one_call m.now id) result out.old out.new tt }
{
    test(out, read::constants::is_one(m, id))
}

#[unsafe(no_mangle)]
pub extern "C" fn atz_is_minus_one(m: &[u64], id: u64, out: &mut [u64]) -> u64
    ensures { Answered as_bit (is_minus_one_call m.now id) result out.old out.new tt }
{
    test(out, read::constants::is_minus_one(m, id))
}

// The degree of a node.
#[unsafe(no_mangle)]
pub extern "C" fn atz_degree(m: &[u64], id: u64, out: &mut [u64]) -> u64
    ensures { Answered as_degree (degree_call m.now id) result out.old out.new tt }
{
    degree(out, read::degree::degree(m, id))
}

// The highest degree of a list of roots.
#[unsafe(no_mangle)]
pub extern "C" fn atz_highest(m: &[u64], roots: &[u64], out: &mut [u64]) -> u64
    ensures { Answered as_degree (highest_call m.now roots.now) result out.old out.new tt }
{
    degree(out, read::degree::highest(m, roots))
}

// Whether a node's value is always in the base field.
#[unsafe(no_mangle)]
pub extern "C" fn atz_base_test(m: &[u64], id: u64, out: &mut [u64]) -> u64
    ensures { Answered as_bit (base_test_call m.now id) result out.old out.new tt }
{
    test(out, read::base_test::base_test(m, id))
}

// A node's value on lent tables: its three words.
#[unsafe(no_mangle)]
pub extern "C" fn atz_evaluate(
    m: &[u64],
    id: u64,
    main: &[u64],
    aux: &[u64],
    challenges: &[u64],
    out: &mut [u64],
) -> u64
    ensures { Answered as_triple (evaluate_call m.now id main.now aux.now challenges.now) result out.old out.new tt }
{
    value(out, read::value::evaluate(m, id, main, aux, challenges))
}

// How many structural classes there are below the roots, roots included.
#[unsafe(no_mangle)]
pub extern "C" fn atz_visible(m: &[u64], roots: &[u64], out: &mut [u64]) -> u64
    ensures { Answered as_number (visible_call m.now roots.now) result out.old out.new tt }
{
    number(out, read::visible::visible(m, roots))
}
