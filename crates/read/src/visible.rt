// Visible nodes: structural classes below a list of roots, roots included. A loose node and an equal rebuilt one count once.
ghost use Rattle.std.specs.Prelude.{◌≡◌, ◌≤◌, length};
ghost use Rattle.layout.specs.Words.{used};
ghost use Rattle.layout.specs.Answers.{told_count};
ghost use Rattle.reading.specs.Readings.{visible};
ghost use Rattle.reading.specs.Calls.{visible_call};
ghost use Rattle.read.specs.Rooted.{Rooted};
ghost use Rattle.read.specs.Marks.{Marked, Markable, marks};

use circuit::check::check;
use classes::find::classes;
use layout::refusal::Refusal;
use paths::counting::count_paths;
use paths::ids::bad_id;

// Marks the classes of the nodes below the roots, which are those that have a path count.
fn mark_classes(m: &[u64], counts: &[u64], class: &[u64], seen: &mut [u64])
    requires { Markable m.now counts.now class.now seen.old }
    ensures { Marked counts.now class.now seen.new (used m.now) }
{
    for i in 0..m[1] {
        if counts[i as usize] != 0 {
            let c = class[i as usize] as usize;
            seen[c] = 1;
        }
    }
}

fn count_marks(seen: &[u64], n: u64) -> u64
    requires { n ≤ length seen.now }
    ensures { result ≡ marks seen.now n }
{
    seen[..n as usize].iter().filter(|&&x| x == 1).count() as u64
}

fn visible_of(m: &[u64], order: &[u64], rank: &[u64], roots: &[u64]) -> u64
    requires { Rooted m.now order.now rank.now roots.now }
    ensures { result ≡ visible m.now roots.now }
{
    let mut counts = [0u64; 4096];
    count_paths(m, order, rank, roots, &mut counts);
    let mut class = [0u64; 4096];
    let mut table = [0u64; 24574];
    let mut least = [0u64; 4097];
    classes(m, order, rank, &mut class, &mut table, &mut least);
    let mut seen = [0u64; 4096];
    mark_classes(m, &counts, &class, &mut seen);
    count_marks(&seen, m[1])
}

// How many structural classes there are below the roots.
pub fn visible(m: &[u64], roots: &[u64]) -> Result<u64, Refusal>
    ensures { told_count result ≡ visible_call m.now roots.now }
{
    let mut order = [0u64; 4096];
    let mut rank = [0u64; 4096];
    if !check(m, &mut order, &mut rank) {
        return Err(Refusal::NotCircuit);
    }
    if bad_id(m, roots) {
        return Err(Refusal::BadId);
    }
    Ok(visible_of(m, &order, &rank, roots))
}
