// Path counts: from the top down, each node gives its own to both operands. So each id is looked at once, however many paths there are.
ghost use Rattle.std.specs.Prelude.{◌≡◌, ◌+◌, ◌<◌, ◌≤◌, length, replicate};
ghost use Rattle.layout.specs.Lists.{written};
ghost use Rattle.layout.specs.Words.{expression_at};
ghost use Rattle.circuit.specs.Walk.{step_of};
ghost use Rattle.circuit.specs.Rank.{at};
ghost use Rattle.paths.specs.Counting.{over, Countable, PathCounts, Seedable, Seeded, added, Giving, gave};

use circuit::check::step_at;

// One above the bound of path counts.
pub const OVER: u64 = 4294967296;

// Saturates: a sum above the bound stays one above it, and nothing wraps.
fn add_at(counts: &mut [u64], i: u64, c: u64)
    requires { (i < length counts.old) × (c ≤ over) }
    ensures { counts.new ≡ added counts.old i c }
{
    let node = i as usize;
    let had = counts[node];
    if had < OVER - c {
        counts[node] = had + c;
    } else {
        counts[node] = OVER;
    }
}

// A node gives its count to its operands: a path to it goes on to each.
fn give(m: &[u64], counts: &mut [u64], i: u64)
    requires { Giving m.now counts.old i }
    ensures { counts.new ≡ gave (step_of (expression_at m.now i)) counts.old (at counts.old i) }
{
    let node = i as usize;
    let c = counts[node];
    let s = step_at(m, i);
    match s {
        None => {}
        Some((l, r)) => {
            add_at(counts, l, c);
            add_at(counts, r, c);
        }
    }
}

// The first n words are zero; the others stay.
pub(crate) fn clear(counts: &mut [u64], n: u64)
    requires { n ≤ length counts.old }
    ensures { counts.new ≡ written (replicate n 0) counts.old }
{
    counts[..n as usize].fill(0);
}

// Each root has one path to itself, and one more where it is named again.
fn seed(roots: &[u64], counts: &mut [u64], n: u64)
    requires { Seedable n roots.now counts.old }
    ensures { Seeded n roots.now counts.new (length roots.now) }
{
    for &root in roots {
        add_at(counts, root, 1);
    }
}

// The paths from the roots to each node. The rank says why the order serves: a node's count is complete when its turn comes.
pub fn count_paths(m: &[u64], order: &[u64], rank: &[u64], roots: &[u64], counts: &mut [u64])
    requires { Countable m.now order.now rank.now roots.now counts.old }
    ensures { PathCounts m.now roots.now counts.new }
{
    let n = m[1];
    clear(counts, n);
    seed(roots, counts, n);
    for q in (0..n).rev() {
        give(m, counts, order[q as usize]);
    }
}
