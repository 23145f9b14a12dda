// How long walks are: tree sizes, each from the operands' own, in rank order. They saturate at a top that the caller sets one above what matters,
// so that a walk too long for any memory is refused at once.
ghost use Rattle.std.specs.Prelude.{◌≡◌, min, length};
ghost use Rattle.layout.specs.Tree.{tree};
ghost use Rattle.walking.specs.Paths.{walk, walks};
ghost use Rattle.paths.specs.Walking.{Sizes, Sizable, Sizing, Summing, Measuring};

use circuit::check::step_at;

// The tree size of node i, from its operands'.
fn size_at(m: &[u64], sizes: &[u64], top: u64, i: u64) -> u64
    requires { Sizing m.now sizes.now top i }
    ensures { result ≡ min top (length (walk (tree m.now i))) }
{
    let s = step_at(m, i);
    match s {
        None => top.min(1),
        Some((l, r)) => {
            let left = l as usize;
            let right = r as usize;
            (sizes[left] + 1 + sizes[right]).min(top)
        }
    }
}

fn tree_sizes(m: &[u64], order: &[u64], rank: &[u64], sizes: &mut [u64], top: u64)
    requires { Sizable m.now order.now rank.now sizes.old top }
    ensures { Sizes m.now sizes.new top }
{
    for q in 0..m[1] {
        let i = order[q as usize];
        sizes[i as usize] = size_at(m, sizes, top, i);
    }
}

fn sum_sizes(m: &[u64], roots: &[u64], sizes: &[u64], top: u64) -> u64
    requires { Summing m.now roots.now sizes.now top }
    ensures { result ≡ min top (length (walks m.now roots.now)) }
{
    let mut sum: u64 = 0;
    for &root in roots {
        sum = (sum + sizes[root as usize]).min(top);
    }
    sum
}

// The length of the walks from the roots, or the top if that is less.
pub(crate) fn walk_length(m: &[u64], order: &[u64], rank: &[u64], roots: &[u64], top: u64) -> u64
    requires { Measuring m.now order.now rank.now roots.now top }
    ensures { result ≡ min top (length (walks m.now roots.now)) }
{
    let mut sizes = [0u64; 4096];
    tree_sizes(m, order, rank, &mut sizes, top);
    sum_sizes(m, roots, &sizes, top)
}
