// TABLE, of tables of any number of rows. Nothing here may wrap: that number is any word, and so are the counts of columns.
ghost use Rattle.std.specs.Prelude.{◌≡◌, ◌+◌, ◌≤◌, length, ltb};
ghost use Rattle.read.specs.Rooted.{Rooted};
ghost use Rattle.filling.specs.Refusals.{bad_rows};
ghost use Rattle.fillable.specs.Listing.{Listing};
ghost use Rattle.fillable.specs.Columned.{columns_in, uneven_in, too_narrow, read_beyond};

use paths::counting::count_paths;
use read::table::{Columns, any_beyond};

// Divides by 3 first: 3 * rows may wrap.
fn columns_in(rows: u64, main: &[u64], aux: &[u64], challenges: &[u64]) -> Columns
    requires { 1 ≤ rows }
    ensures { result ≡ columns_in rows main.now aux.now challenges.now }
{
    let n = rows as usize;
    Columns {
        main: (main.len() / n) as u64,
        aux: (aux.len() / 3 / n) as u64,
        challenges: (challenges.len() / 3) as u64,
    }
}

// A length that its layout does not divide.
fn is_uneven(rows: u64, main: &[u64], aux: &[u64], challenges: &[u64]) -> bool
    requires { 1 ≤ rows }
    ensures { result ≡ uneven_in rows main.now aux.now challenges.now }
{
    let n = rows as usize;
    if main.len() % n != 0 {
        return true;
    }
    if aux.len() % 3 != 0 {
        return true;
    }
    if aux.len() / 3 % n != 0 {
        return true;
    }
    challenges.len() % 3 != 0
}

// Whether a row of so many columns has no room for so many and the new ones.
fn is_narrow(width: u64, count: u64, nodes: &[u64]) -> bool
    ensures { result ≡ ltb width (count + length nodes.now) }
{
    if width < count {
        return true;
    }
    width - count < nodes.len() as u64
}

fn no_room(c: Columns, main_count: u64, aux_count: u64, mains: &[u64], auxs: &[u64]) -> bool
    ensures { result ≡ too_narrow c main_count aux_count mains.now auxs.now }
{
    if is_narrow(c.main, main_count, mains) {
        return true;
    }
    is_narrow(c.aux, aux_count, auxs)
}

// Whether a node at or below the roots reads beyond a row.
fn reads_beyond(m: &[u64], order: &[u64], rank: &[u64], roots: &[u64], c: Columns) -> bool
    requires { Rooted m.now order.now rank.now roots.now }
    ensures { result ≡ read_beyond c m.now roots.now }
{
    let mut counts = [0u64; 4096];
    count_paths(m, order, rank, roots, &mut counts);
    any_beyond(m, &counts, c)
}

// 15: fewer rows than the circuit reads, a length that its layout does not divide, no room for the new columns, or a node at or below a listed one
// that reads beyond a row.
pub fn bad_rows(
    m: &[u64],
    order: &[u64],
    rank: &[u64],
    mains: &[u64],
    auxs: &[u64],
    main_count: u64,
    aux_count: u64,
    rows: u64,
    main: &[u64],
    aux: &[u64],
    challenges: &[u64],
) -> bool
    requires { Listing m.now order.now rank.now mains.now auxs.now }
    ensures { result ≡ bad_rows rows main_count aux_count m.now mains.now auxs.now main.now aux.now challenges.now }
{
    if rows < m[0] {
        return true;
    }
    if is_uneven(rows, main, aux, challenges) {
        return true;
    }
    let c = columns_in(rows, main, aux, challenges);
    if no_room(c, main_count, aux_count, mains, auxs) {
        return true;
    }
    if reads_beyond(m, order, rank, mains, c) {
        return true;
    }
    reads_beyond(m, order, rank, auxs, c)
}
