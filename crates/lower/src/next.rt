// The next choice, with tables that are filled anew: each pass looks at every node once, whatever the paths are.
ghost use Rattle.std.specs.Prelude.{◌≡◌, ◌<◌};
ghost use Rattle.layout.specs.Words.{used};
ghost use Rattle.layout.specs.Tree.{tree};
ghost use Rattle.paths.specs.Counting.{PathCounts};
ghost use Rattle.reading.specs.Readings.{is_base};
ghost use Rattle.read.specs.Tables.{Ranked};
ghost use Rattle.lower.specs.Tables.{high_in};
ghost use Rattle.lower.specs.Survey.{Surveyable, Surveyed, Occurring, Choosable, Picked};

use crate::choose::{best_candidate, high_nodes};
use crate::tests::too_high;
use circuit::check::order_of;
use paths::counting::count_paths;
use read::base_test;
use read::degree::degrees_along;

// The order of the nodes, their degrees, and the paths from the roots to each.
pub(crate) fn survey(
    m: &[u64],
    roots: &[u64],
    order: &mut [u64],
    rank: &mut [u64],
    degrees: &mut [u64],
    counts: &mut [u64],
)
    requires { Surveyable m.now roots.now order.old rank.old degrees.old counts.old }
    ensures { Surveyed m.now roots.now order.new rank.new degrees.new counts.new }
{
    order_of(m, order, rank);
    degrees_along(m, order, rank, degrees);
    count_paths(m, order, rank, roots, counts);
}

// The occurrences of each node: the paths from all nodes below the roots with a degree above d, nested ones too.
pub(crate) fn occurrences(
    m: &[u64],
    order: &[u64],
    rank: &[u64],
    degrees: &[u64],
    counts: &[u64],
    d: u64,
    high: &mut [u64],
    found: &mut [u64],
)
    requires { Occurring m.now order.now rank.now high.old found.old }
    ensures { PathCounts m.now (high_in degrees.now counts.now d (used m.now)) found.new }
{
    let many = high_nodes(degrees, counts, d, m[1], high) as usize;
    count_paths(m, order, rank, &high[..many], found);
}

// The base test of node s.
fn is_base(m: &[u64], rank: &[u64], s: u64) -> bool
    requires { Ranked m.now rank.now }
    ensures { s < used m.now → result ≡ is_base (tree m.now s) }
{
    s < m[1] && base_test::is_base(m, rank, s)
}

// The node to substitute next, chosen among the candidates, and its base test; none where no root's degree exceeds the target.
pub(crate) fn next_choice(m: &[u64], roots: &[u64], target: u64) -> Option<(u64, bool)>
    requires { Choosable target m.now roots.now }
    ensures { Picked target m.now roots.now result }
{
    let mut order = [0u64; 4096];
    let mut rank = [0u64; 4096];
    let mut degrees = [0u64; 4096];
    let mut counts = [0u64; 4096];
    survey(m, roots, &mut order, &mut rank, &mut degrees, &mut counts);
    if !too_high(&degrees, target, roots) {
        return None;
    }
    let mut high = [0u64; 4096];
    let mut found = [0u64; 4096];
    occurrences(
        m, &order, &rank, &degrees, &counts, target, &mut high, &mut found,
    );
    let s = best_candidate(&degrees, &found, target, m[1]);
    Some((s, is_base(m, &rank, s)))
}
