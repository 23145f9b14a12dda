// The test 17 NOT_LOWERED: a listed node has the form, and its expression reads no column that is neither old nor filled before it.
ghost use Rattle.std.specs.Prelude.{◌≡◌, ◌+◌, ◌<◌};
ghost use Rattle.layout.specs.declared.node.Position.TheVariants.{Main, Aux};
ghost use Rattle.layout.specs.Words.{used};
ghost use Rattle.filling.specs.Constraints.{expression_of, reads_unfilled};
ghost use Rattle.filling.specs.Refusals.{mains_wrong, auxs_wrong};
ghost use Rattle.fillable.specs.Targets.{Lowerable, Tested, Reached, Based, Listable, Answered, unless, wrong_for_main};

use crate::form::expression_of;
use crate::reach::reaches;
use layout::node::Position;

// The expression that node q gives the column y, if it reads only the first a main columns and the first b auxiliary ones of the current row.
fn ready(
    m: &[u64],
    main_reach: &[u64],
    aux_reach: &[u64],
    y: Position,
    q: u64,
    a: u64,
    b: u64,
) -> Option<u64>
    requires { Reached m.now main_reach.now aux_reach.now × (q < used m.now) }
    ensures { result ≡ unless (reads_unfilled a b m.now) (expression_of m.now y q) }
{
    let e = expression_of(m, y, q)?;
    let node = e as usize;
    if a < main_reach[node] {
        return None;
    }
    if b < aux_reach[node] {
        return None;
    }
    Some(e)
}

// The expression that node q gives the main column a, if it passes the base test too.
fn ready_main(
    m: &[u64],
    main_reach: &[u64],
    aux_reach: &[u64],
    bases: &[u64],
    q: u64,
    a: u64,
    b: u64,
) -> Option<u64>
    requires { Reached m.now main_reach.now aux_reach.now × Based m.now bases.now × (q < used m.now) }
    ensures { result ≡ unless (wrong_for_main a b m.now) (expression_of m.now (Main a) q) }
{
    let e = ready(m, main_reach, aux_reach, Position::Main(a), q, a, b)?;
    let node = e as usize;
    if bases[node] != 1 {
        return None;
    }
    Some(e)
}

// The main list: the column main_count + k is filled by its node k. The expressions go to the targets from the first place on.
fn mains_wrong(
    m: &[u64],
    main_reach: &[u64],
    aux_reach: &[u64],
    bases: &[u64],
    mains: &[u64],
    main_count: u64,
    aux_count: u64,
    targets: &mut [u64],
) -> bool
    requires { Listable m.now main_reach.now aux_reach.now main_count 0 mains.now targets.old × Based m.now bases.now }
    ensures { Answered (mains_wrong aux_count m.now main_count mains.now) Main main_count 0 m.now mains.now targets.old targets.new result }
{
    for (k, &q) in mains.iter().enumerate() {
        let column = main_count + k as u64;
        let Some(e) = ready_main(m, main_reach, aux_reach, bases, q, column, aux_count) else {
            return true;
        };
        targets[k] = e;
    }
    false
}

// The auxiliary list, where main_end main columns are there. The expressions go to the targets from the place `first` on.
fn auxs_wrong(
    m: &[u64],
    main_reach: &[u64],
    aux_reach: &[u64],
    auxs: &[u64],
    main_end: u64,
    aux_count: u64,
    first: usize,
    targets: &mut [u64],
) -> bool
    requires { Listable m.now main_reach.now aux_reach.now aux_count first auxs.now targets.old }
    ensures { Answered (auxs_wrong main_end m.now aux_count auxs.now) Aux aux_count first m.now auxs.now targets.old targets.new result }
{
    for (k, &q) in auxs.iter().enumerate() {
        let column = aux_count + k as u64;
        let y = Position::Aux(column);
        let Some(e) = ready(m, main_reach, aux_reach, y, q, main_end, column) else {
            return true;
        };
        targets[first + k] = e;
    }
    false
}

// The main list's columns begin at main_count, the auxiliary list's at aux_count. The expressions of the main list are handed on first.
pub fn not_lowered(
    m: &[u64],
    order: &[u64],
    rank: &[u64],
    mains: &[u64],
    auxs: &[u64],
    main_count: u64,
    aux_count: u64,
    bases: &[u64],
    targets: &mut [u64],
) -> bool
    requires { Lowerable main_count aux_count m.now order.now rank.now mains.now auxs.now bases.now targets.old }
    ensures { Tested main_count aux_count m.now mains.now auxs.now targets.new result }
{
    // How far each node reads among the main columns, and among the auxiliary ones.
    let mut main = [0u64; 4096];
    reaches(m, order, rank, true, &mut main);
    let mut aux = [0u64; 4096];
    reaches(m, order, rank, false, &mut aux);
    if mains_wrong(m, &main, &aux, bases, mains, main_count, aux_count, targets) {
        return true;
    }
    let first = mains.len();
    let main_end = main_count + first as u64;
    auxs_wrong(m, &main, &aux, auxs, main_end, aux_count, first, targets)
}
