// Operations: document 01, "Building". Each answers an id.
ghost use Rattle.layout.specs.declared.node.Op.TheVariants.{Add, Multiply};
ghost use Rattle.building.specs.Calls.{operation_call, subtract_call, negate_call, sum_call};
ghost use Rattle.abi.specs.Answers.{Answered, as_number};

use crate::answers::number;
use build_calls::calls;
use layout::node::Op;

#[unsafe(no_mangle)]
pub extern "C" fn atz_add(m: &mut [u64], left: u64, right: u64, out: &mut [u64]) -> u64
    ensures { Answered as_number (operation_call m.old Add left right) result out.old out.new m.new }
{
    number(out, calls::operation(m, Op::Add, left, right))
}

#[unsafe(no_mangle)]
pub extern "C" fn atz_multiply(m: &mut [u64], left: u64, right: u64, out: &mut [u64]) -> u64
    ensures { Answered as_number (operation_call m.old Multiply left right) result out.old out.new m.new }
{
    number(out, calls::operation(m, Op::Multiply, left, right))
}

// left - right
#[unsafe(no_mangle)]
pub extern "C" fn atz_subtract(m: &mut [u64], left: u64, right: u64, out: &mut [u64]) -> u64
    ensures { Answered as_number (subtract_call m.old left right) result out.old out.new m.new }
{
    number(out, calls::subtract(m, left, right))
}

// -a
#[unsafe(no_mangle)]
pub extern "C" fn atz_negate(m: &mut [u64], a: u64, out: &mut [u64]) -> u64
    ensures { Answered as_number (negate_call m.old a) result out.old out.new m.new }
{
    number(out, calls::negate(m, a))
}

// From the left.
#[unsafe(no_mangle)]
pub extern "C" fn atz_sum(m: &mut [u64], ids: &[u64], out: &mut [u64]) -> u64
    ensures { Answered as_number (sum_call m.old ids.now) result out.old out.new m.new }
{
    number(out, calls::sum(m, ids))
}
