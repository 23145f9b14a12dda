// The public call of this layer. It asks nothing of the words that are lent.
ghost use Rattle.std.specs.Prelude.{◌≡◌};
ghost use Rattle.classes.specs.Classes.{equal_call};
ghost use Rattle.classes.specs.Told.{told_equal};

use crate::numbers::{NUMBERS, number_all};
use crate::table::TABLE;
use circuit::check::check;
use circuit::place::entry;
use layout::refusal::Refusal;

// Same kind, same constant or index, same operation with equal operands in the same order.
pub fn equal(m: &[u64], i: u64, j: u64) -> Result<bool, Refusal>
    ensures { told_equal result ≡ equal_call m.now i j }
{
    let mut order = [0u64; 4096];
    let mut rank = [0u64; 4096];
    if !check(m, &mut order, &mut rank) {
        return Err(Refusal::NotCircuit);
    }
    if m[1] <= i {
        return Err(Refusal::BadId);
    }
    if m[1] <= j {
        return Err(Refusal::BadId);
    }
    let mut numbers = [0u64; NUMBERS];
    let mut table = [0u64; TABLE];
    number_all(m, &order, &rank, &mut numbers, &mut table);
    Ok(entry(&numbers, i) == entry(&numbers, j))
}
