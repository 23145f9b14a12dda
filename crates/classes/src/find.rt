// The class tables that go along with a circuit: a search is one lookup, and a node made adds one entry.
ghost use Rattle.std.specs.Prelude.{◌≡◌};
ghost use Rattle.layout.specs.Words.{used};
ghost use Rattle.classes.specs.Find.{least_equal, Classed, Fillable, Sorting, Findable, Joinable};

use crate::least::{least_ids, list_registered, note};
use crate::numbers::{enter_one, key_of, number_all};
use crate::table::seek;
use circuit::place::entry;
use layout::node::Expression;

// The class of each node: the least id of equal structure. The table and the least ids are work of the call.
pub fn classes(
    m: &[u64],
    order: &[u64],
    rank: &[u64],
    class: &mut [u64],
    table: &mut [u64],
    least: &mut [u64],
)
    requires { Fillable m.now order.now rank.now class.old table.old least.old }
    ensures { Sorting m.now class.new }
{
    number_all(m, order, rank, class, table);
    let n = m[1];
    least_ids(class, least, n);
}

// The tables of a circuit, from nothing.
pub fn class_tables(
    m: &[u64],
    order: &[u64],
    rank: &[u64],
    numbers: &mut [u64],
    table: &mut [u64],
    least: &mut [u64],
)
    requires { Fillable m.now order.now rank.now numbers.old table.old least.old }
    ensures { Classed m.now (used m.now) numbers.new table.new least.new }
{
    number_all(m, order, rank, numbers, table);
    list_registered(m, numbers, least);
}

// The least registered node that is equal to an expression by structure.
pub fn find(m: &[u64], numbers: &[u64], table: &[u64], least: &[u64], e: Expression) -> Option<u64>
    requires { Findable m.now numbers.now table.now least.now e }
    ensures { result ≡ least_equal m.now e }
{
    let v = seek(table, key_of(numbers, e))?;
    // one more than the least id, or 0
    least[v as usize].checked_sub(1)
}

// The last node, which was just made, joins the tables.
pub fn join(m: &[u64], numbers: &mut [u64], table: &mut [u64], least: &mut [u64])
    requires { Joinable m.now numbers.old table.old least.old }
    ensures { Classed m.now (used m.now) numbers.new table.new least.new }
{
    let i = m[1] - 1;
    enter_one(m, i, numbers, table);
    note(least, entry(numbers, i), i);
}
