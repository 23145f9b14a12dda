// The refusals of a lowering, in document 01's order.
ghost use Rattle.std.specs.Prelude.{◌≡◌, true, false, ◌||◌, ◌-◌, ◌*◌, ◌≤◌, length, ltb};
ghost use Rattle.layout.specs.Words.{used, limit};
ghost use Rattle.layout.specs.NotCircuit.{not_circuit, bad_id};
ghost use Rattle.layout.specs.Outcomes.{refusal};
ghost use Rattle.layout.specs.Answers.{answer_number};
ghost use Rattle.circuit.specs.Rank.{Sorted};
ghost use Rattle.reading.specs.Refusals.{over_degree};
ghost use Rattle.lowering.specs.Lowering.{too_high};
ghost use Rattle.lower.specs.Refusing.{first_refusal, then_tests, then_refusal, Passed, columns_for, over_from};

use crate::choose::high_nodes;
use crate::next::{occurrences, survey};
use crate::tests::{any_at_or_above, any_loose, any_over, too_high, too_wide};
use circuit::calls::is_circuit;
use circuit::check::limit_of;
use layout::refusal::Refusal;
use paths::ids::bad_id;

// The bound of degrees.
const HIGHEST: u64 = 2147483647;

// DEGREE: a root, or a node below one, has a degree over the bound.
fn over_degree(m: &[u64], roots: &[u64]) -> bool
    requires { (not_circuit m.now ≡ false) × (bad_id m.now roots.now ≡ false) }
    ensures { result ≡ over_degree m.now roots.now }
{
    let mut order = [0u64; 4096];
    let mut rank = [0u64; 4096];
    let mut degrees = [0u64; 4096];
    let mut counts = [0u64; 4096];
    survey(m, roots, &mut order, &mut rank, &mut degrees, &mut counts);
    let mut over = [0u64; 4096];
    0 < high_nodes(&degrees, &counts, HIGHEST, m[1], &mut over)
}

// 1, 8, 2, 11: these are tested of every lowering.
pub(crate) fn first_refusal(m: &[u64], roots: &[u64], target: u64) -> Result<(), Refusal>
    ensures { answer_number result ≡ first_refusal target m.now roots.now }
{
    if !is_circuit(m) {
        return Err(Refusal::NotCircuit);
    }
    if target < 2 {
        return Err(Refusal::Target);
    }
    if bad_id(m, roots) {
        return Err(Refusal::BadId);
    }
    if over_degree(m, roots) {
        return Err(Refusal::Degree);
    }
    Ok(())
}

// Whether some root's degree exceeds the target: else nothing more is tested, and nothing done.
pub(crate) fn exceeds(m: &[u64], roots: &[u64], target: u64) -> bool
    requires { Passed m.now roots.now }
    ensures { result ≡ too_high target m.now roots.now }
{
    let mut order = [0u64; 4096];
    let mut rank = [0u64; 4096];
    let mut degrees = [0u64; 4096];
    let mut counts = [0u64; 4096];
    survey(m, roots, &mut order, &mut rank, &mut degrees, &mut counts);
    too_high(&degrees, target, roots)
}

// COLUMNS: an input at or above its count, or no room for so many columns more.
fn bad_columns(m: &[u64], main_count: u64, aux_count: u64, heavy: u64) -> bool
    requires { not_circuit m.now ≡ false }
    ensures { result ≡ columns_for main_count aux_count m.now heavy }
{
    any_at_or_above(m, main_count, aux_count)
        || too_wide(main_count, heavy)
        || too_wide(aux_count, heavy)
}

// PATHS: some node of degree above 1 occurs too often.
fn over_occurrences(
    m: &[u64],
    order: &[u64],
    rank: &[u64],
    degrees: &[u64],
    counts: &[u64],
    target: u64,
) -> bool
    requires { (not_circuit m.now ≡ false) × (Sorted m.now order.now rank.now × (4096 ≤ length order.now)) }
    ensures { result ≡ over_from m.now degrees.now counts.now target }
{
    let mut high = [0u64; 4096];
    let mut found = [0u64; 4096];
    occurrences(
        m, order, rank, degrees, counts, target, &mut high, &mut found,
    );
    any_over(degrees, &found, m[1])
}

// FULL: fewer free places than three for each id of degree above 1.
fn too_full(m: &[u64], heavy: u64) -> bool
    requires { (not_circuit m.now ≡ false) × (heavy ≤ 4096) }
    ensures { result ≡ ltb (limit m.now - used m.now) (3 * heavy) }
{
    limit_of(m) - m[1] < 3 * heavy
}

// NO_ROOM: a list with fewer places than that.
fn too_short(main_room: u64, aux_room: u64, heavy: u64) -> bool
    ensures { result ≡ (ltb main_room heavy || ltb aux_room heavy) }
{
    main_room < heavy || aux_room < heavy
}

// The first that applies is the refusal.
fn first_of(loose: bool, columns: bool, paths: bool, full: bool, room: bool) -> Result<(), Refusal>
    ensures { answer_number result ≡ refusal (then_tests loose columns paths full room) }
{
    if loose {
        return Err(Refusal::Loose);
    }
    if columns {
        return Err(Refusal::Columns);
    }
    if paths {
        return Err(Refusal::Paths);
    }
    if full {
        return Err(Refusal::Full);
    }
    if room {
        return Err(Refusal::NoRoom);
    }
    Ok(())
}

// 10, 9, 12, 6, 13: tested where some root's degree exceeds the target. Each list has so many places.
pub(crate) fn then_refusal(
    m: &[u64],
    roots: &[u64],
    target: u64,
    main_count: u64,
    aux_count: u64,
    main_room: u64,
    aux_room: u64,
) -> Result<(), Refusal>
    requires { Passed m.now roots.now × (too_high target m.now roots.now ≡ true) }
    ensures { answer_number result ≡ then_refusal target main_count aux_count main_room aux_room m.now roots.now }
{
    let mut order = [0u64; 4096];
    let mut rank = [0u64; 4096];
    let mut degrees = [0u64; 4096];
    let mut counts = [0u64; 4096];
    survey(m, roots, &mut order, &mut rank, &mut degrees, &mut counts);
    let mut high = [0u64; 4096];
    let heavy = high_nodes(&degrees, &counts, 1, m[1], &mut high);
    first_of(
        any_loose(m, &counts),
        bad_columns(m, main_count, aux_count, heavy),
        over_occurrences(m, &order, &rank, &degrees, &counts, target),
        too_full(m, heavy),
        too_short(main_room, aux_room, heavy),
    )
}
