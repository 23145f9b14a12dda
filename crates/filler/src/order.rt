// The order of a plan: the nodes at or below the listed expressions, each once, after its operands, and a new column's input after its expression.
ghost use Rattle.std.specs.Prelude.{◌/◌, ◌≤◌, length};
ghost use Rattle.filler.specs.Planning.{Staged};
ghost use Rattle.filler.specs.Ordering.{Targeted, Orderable};
ghost use Rattle.filler.specs.Ranking.{Reached, Apart, ByRank};

use crate::plan::Shape;
use circuit::check::{unfinish, visit};

// Finishes the nodes below the expressions, in the order of the items: how many there are. A walk from an earlier expression is done before that of a
// later one begins. The challenges are not read: how many there are says which reads are within bounds.
fn rank_targets(m: &[u64], targets: &[u64], challenges: &[u64], s: Shape, rank: &mut [u64]) -> u64
    requires { Targeted s (length challenges.now / 3) m.now targets.now × ((s.items ≤ length targets.now) × (4096 ≤ length rank.old)) }
    ensures { Reached s (length challenges.now / 3) m.now targets.now rank.new result s.items }
{
    let n = m[1];
    unfinish(rank, n);
    let mut done: u64 = 0;
    for &i in &targets[..s.items as usize] {
        // The paths of a circuit end.
        done = visit(m, rank, i, done, n).unwrap();
    }
    done
}

// Lists the finished nodes by their ranks.
fn list_ranked(rank: &[u64], order: &mut [u64], n: u64)
    requires { Apart rank.now n × ((n ≤ length order.old) × (n ≤ length rank.now)) }
    ensures { ByRank order.new rank.now n }
{
    for (i, &q) in rank[..n as usize].iter().enumerate() {
        if q < n {
            order[q as usize] = i as u64;
        }
    }
}

// Both. The challenges are not read here either.
pub(crate) fn order_targets(
    m: &[u64],
    targets: &[u64],
    challenges: &[u64],
    s: Shape,
    order: &mut [u64],
    rank: &mut [u64],
) -> u64
    requires { Orderable s (length challenges.now / 3) m.now targets.now order.old rank.old }
    ensures { Staged s m.now targets.now order.new rank.new result }
{
    let done = rank_targets(m, targets, challenges, s, rank);
    list_ranked(rank, order, m[1]);
    done
}
