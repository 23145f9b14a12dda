// Reference counts: each node below the roots gets the number of paths from the roots to it.
ghost use Rattle.std.specs.Prelude.{◌≡◌, ℕ, ◌+◌, ◌<◌, ◌≤◌, ltb, length};
ghost use Rattle.layout.specs.Lists.{any, up_to};
ghost use Rattle.layout.specs.Words.{used, offset};
ghost use Rattle.circuit.specs.Rank.{at};
ghost use Rattle.walking.specs.Calls.{count_call, counts_call};
ghost use Rattle.walking.specs.Told.{told_count, told_counted};
ghost use Rattle.paths.specs.Rising.{Counting, put, put_all, Words, gathered, Gathering};

use crate::counting::count_paths;
use crate::ids::bad_id;
use crate::rising::{copy_words, insert_word};
use circuit::check::check;
use circuit::place::{node_at, write_word};
use layout::refusal::Refusal;

// The bound of path counts.
const MOST_PATHS: u64 = 4294967295;

// Whether more than one path leads to some root: it is named twice, or lies below another.
fn any_repeated(roots: &[u64], counts: &[u64]) -> bool
    requires { (k : ℕ) → k < length roots.now → at roots.now k < length counts.now }
    ensures { result ≡ any (λ i. ltb 1 (at counts.now i)) roots.now }
{
    roots.iter().any(|&root| 1 < counts[root as usize])
}

fn any_over(counts: &[u64], n: u64) -> bool
    requires { n ≤ length counts.now }
    ensures { result ≡ any (λ i. ltb 4294967295 (at counts.now i)) (up_to n) }
{
    counts[..n as usize].iter().any(|&c| MOST_PATHS < c)
}

// A node that no path leads to keeps its count.
fn put_count(m: &mut [u64], i: u64, c: u64)
    requires { offset i + 6 ≤ length m.old }
    ensures { m.new ≡ put m.old i c }
{
    if 0 < c {
        write_word(m, i, 5, c);
    }
}

fn put_counts(m: &mut [u64], counts: &[u64])
    requires { Counting m.old counts.now }
    ensures { m.new ≡ put_all m.old counts.now }
{
    for i in 0..m[1] {
        put_count(m, i, counts[i as usize]);
    }
}

// Reference counts of a list of roots, written to the nodes below them.
pub fn count_references(m: &mut [u64], roots: &[u64]) -> Result<(), Refusal>
    ensures { told_counted result m.new ≡ count_call m.old roots.now }
{
    let mut order = [0u64; 4096];
    let mut rank = [0u64; 4096];
    if !check(m, &mut order, &mut rank) {
        return Err(Refusal::NotCircuit);
    }
    if bad_id(m, roots) {
        return Err(Refusal::BadId);
    }
    let mut counts = [0u64; 4096];
    count_paths(m, &order, &rank, roots, &mut counts);
    if any_repeated(roots, &counts) {
        return Err(Refusal::Repeat);
    }
    if any_over(&counts, m[1]) {
        return Err(Refusal::Paths);
    }
    put_counts(m, &counts);
    Ok(())
}

// The reference counts of the nodes that have a path count, rising and each once: how many.
fn gather(m: &[u64], counts: &[u64], words: &mut [u64]) -> u64
    requires { Gathering m.now counts.now words.old }
    ensures { Words words.new (gathered m.now counts.now (used m.now)) result }
{
    let mut found: u64 = 0;
    for j in 0..m[1] {
        if 0 < counts[j as usize] {
            found = insert_word(words, found, node_at(m, j).references);
        }
    }
    found
}

// The sorted distinct reference counts of the nodes below node i, itself included: how many now stand in the list.
pub fn distinct_counts(m: &[u64], i: u64, list: &mut [u64]) -> Result<u64, Refusal>
    ensures { told_count result list.new ≡ counts_call m.now i list.old }
{
    let mut order = [0u64; 4096];
    let mut rank = [0u64; 4096];
    if !check(m, &mut order, &mut rank) {
        return Err(Refusal::NotCircuit);
    }
    if m[1] <= i {
        return Err(Refusal::BadId);
    }
    let mut counts = [0u64; 4096];
    let root = [i; 1];
    count_paths(m, &order, &rank, &root, &mut counts);
    let mut words = [0u64; 4096];
    let found = gather(m, &counts, &mut words);
    if (list.len() as u64) < found {
        return Err(Refusal::NoRoom);
    }
    copy_words(&words, list, found);
    Ok(found)
}
