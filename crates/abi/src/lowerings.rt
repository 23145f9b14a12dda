// Lowering: document 01, "Lowering".
ghost use Rattle.lowering.specs.Lowering.{Lowering};
ghost use Rattle.lowering.specs.Calls.{lower_call};
ghost use Rattle.abi.specs.Answers.{Answered, as_pair};

use crate::answers::lowered;
use lower::calls::lower;

// Lowers the roots to the target: how many main and how many auxiliary constraints now stand in the two lists.
#[unsafe(no_mangle)]
pub extern "C" fn atz_lower(
    m: &mut [u64],
    roots: &mut [u64],
    target: u64,
    main_count: u64,
    aux_count: u64,
    main: &mut [u64],
    aux: &mut [u64],
    out: &mut [u64],
) -> u64
    ensures { Answered as_pair (lower_call target main_count aux_count (record { circuit = m.old; roots = roots.old; main = main.old; aux = aux.old })) result out.old out.new (record { circuit = m.new; roots = roots.new; main = main.new; aux = aux.new }) }
{
    lowered(
        out,
        lower(m, roots, target, main_count, aux_count, main, aux),
    )
}
