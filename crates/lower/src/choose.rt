// The choice: from tables with an entry for each node, the high nodes, and the candidate with most occurrences, then highest degree, then least id.
ghost use Rattle.std.specs.Prelude.{◌≡◌, ◌≤◌, length};
ghost use Rattle.lowering.specs.Lowering.{better};
ghost use Rattle.lower.specs.Tables.{above_in, is_high_in, high_in, Listed, is_candidate_in, best_in, candidate_of, improved};

use circuit::place::entry;

// A candidate: its degree is one higher, as in the table.
#[derive(Clone, Copy)]
pub struct Choice {
    pub id: u64,
    pub degree: u64,
    pub occurrences: u64,
}

// Whether node i has a degree above d. The table's degrees are one higher, and d may be the greatest word.
pub(crate) fn is_above(degrees: &[u64], d: u64, i: u64) -> bool
    ensures { result ≡ above_in degrees.now d i }
{
    let higher = entry(degrees, i);
    higher != 0 && d < higher - 1
}

// Whether it lies below the roots, too.
fn is_high(degrees: &[u64], counts: &[u64], d: u64, i: u64) -> bool
    ensures { result ≡ is_high_in degrees.now counts.now d i }
{
    entry(counts, i) != 0 && is_above(degrees, d, i)
}

// Lists the ids of the nodes below the roots with a degree above d, by rising ids; how many there are.
pub(crate) fn high_nodes(degrees: &[u64], counts: &[u64], d: u64, n: u64, high: &mut [u64]) -> u64
    requires { n ≤ length high.old }
    ensures { Listed (high_in degrees.now counts.now d n) high.new result }
{
    let mut many: u64 = 0;
    for i in 0..n {
        if is_high(degrees, counts, d, i) {
            high[many as usize] = i;
            many += 1;
        }
    }
    many
}

// Degree 2 up to the target.
fn is_candidate(degrees: &[u64], target: u64, i: u64) -> bool
    ensures { result ≡ is_candidate_in degrees.now target i }
{
    is_above(degrees, 1, i) && !is_above(degrees, target, i)
}

// Of two, a has the lesser id.
fn better(a: Choice, b: Choice) -> Choice
    ensures { candidate_of result ≡ better (candidate_of a) (candidate_of b) }
{
    if a.occurrences < b.occurrences {
        return b;
    }
    if a.occurrences != b.occurrences {
        return a;
    }
    if a.degree < b.degree {
        return b;
    }
    a
}

// The best so far, and then node i.
fn improve(degrees: &[u64], occurrences: &[u64], target: u64, a: Choice, i: u64) -> Choice
    ensures { candidate_of result ≡ improved degrees.now occurrences.now target (candidate_of a) i }
{
    if !is_candidate(degrees, target, i) {
        return a;
    }
    let b = Choice {
        id: i,
        degree: entry(degrees, i),
        occurrences: entry(occurrences, i),
    };
    better(a, b)
}

// The choice among the first n nodes. It starts with what each candidate is better than.
pub(crate) fn best_candidate(degrees: &[u64], occurrences: &[u64], target: u64, n: u64) -> u64
    ensures { result ≡ best_in degrees.now occurrences.now target n }
{
    let mut best = Choice {
        id: 0,
        degree: 0,
        occurrences: 0,
    };
    for i in 0..n {
        best = improve(degrees, occurrences, target, best, i);
    }
    best.id
}
