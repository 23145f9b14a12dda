// The walk and the reference counts: document 01, "Readings".
ghost use Rattle.walking.specs.Calls.{walk_call, count_call, counts_call};
ghost use Rattle.abi.specs.Answers.{Answered, Done, as_number};

use crate::answers::number;
use circuit::refusal;
use paths::references;
use paths::walk::walk;

// The walk from each root after the other, into the list: how many ids.
#[unsafe(no_mangle)]
pub extern "C" fn atz_walk(
    m: &[u64],
    roots: &[u64],
    list: &mut [u64],
    stack: &mut [u64],
    out: &mut [u64],
) -> u64
    ensures { Answered as_number (walk_call m.now roots.now list.old stack.old) result out.old out.new (list.new, stack.new) }
{
    number(out, walk(m, roots, list, stack))
}

// Writes the reference counts of a list of roots.
#[unsafe(no_mangle)]
pub extern "C" fn atz_count_references(m: &mut [u64], roots: &[u64]) -> u64
    ensures { Done (count_call m.old roots.now) result m.new }
{
    refusal::number(references::count_references(m, roots))
}

// The sorted distinct counts below an id, into the list: how many.
#[unsafe(no_mangle)]
pub extern "C" fn atz_distinct_counts(m: &[u64], id: u64, list: &mut [u64], out: &mut [u64]) -> u64
    ensures { Answered as_number (counts_call m.now id list.old) result out.old out.new list.new }
{
    number(out, references::distinct_counts(m, id, list))
}
