// The records of a dump besides its nodes: what is read of the whole circuit and of its roots, compared.
use crate::calls::listed;
use crate::nodes::compare_degree;
use crate::tally::{
    COUNTED, DUMPS, LEAST, NODE, PLACE, REGISTERED, SAID, STAGE, VALUED, WRONG, add, compare,
    compare_count, compare_list, flag, get, must, part, put, turn,
};
use crate::text::{after, byte_at, number};
use circuit::{calls, refusal};
use field::base;
use paths::references::{count_references, distinct_counts};
use paths::walk::walk;
use read::degree::highest;
use read::visible::visible;

fn forget(t: &mut [u64]) {
    put(t, NODE, 0);
    put(t, REGISTERED, 0);
    put(t, LEAST, 0);
    put(t, PLACE, 0);
}

// What a dump says of itself: how many are registered, and whether nodes have values.
fn keep(t: &mut [u64], line: &[u8]) {
    put(t, SAID, number(line, 5, 2));
    put(t, VALUED, flag(byte_at(line, 11) == b'v'));
}

// A dump begins: the used count, and the number of roots.
pub(crate) fn head(t: &mut [u64], m: &[u64], roots: &[u64], line: &[u8]) {
    add(t, DUMPS, 1);
    forget(t);
    keep(t, line);
    compare_head(t, m, roots, line);
}

fn compare_head(t: &mut [u64], m: &[u64], roots: &[u64], line: &[u8]) {
    turn(t, STAGE, 0, 1);
    compare_count(t, calls::used(m), number(line, 1, 2));
    compare(t, listed(roots).len() as u64, number(line, 9, 1));
}

// All nodes have come: as many as are used, as many registered as was said, and as many structures below all of them as ids that are their own class.
// So no two of these are equal, and each node's class is the least id of its structure.
fn compare_whole(t: &mut [u64], m: &[u64]) {
    let nodes = get(t, NODE);
    let registered = get(t, REGISTERED);
    let said = get(t, SAID);
    let least = get(t, LEAST);
    compare_count(t, calls::used(m), nodes);
    compare(t, registered, said);
    let ids: [u64; 512] = std::array::from_fn(|i| i as u64);
    compare_count(t, visible(m, part(&ids, 0, nodes as usize)), least);
}

// The root list in its order.
pub(crate) fn roots_of(t: &mut [u64], m: &[u64], roots: &[u64], line: &[u8]) {
    turn(t, STAGE, 1, 2);
    compare_whole(t, m);
    compare_list(t, listed(roots), after(line, 1), 2);
}

// The sum of a walk: what README.md of the vectors says.
fn walk_sum(ids: &[u64]) -> u64 {
    ids.iter().fold(0, |sum, &id| {
        base::add(base::multiply(sum, 1000003), base::add(id, 1))
    })
}

// The root at the place that a record of this stage names, which comes in the list's order.
fn root_at(t: &mut [u64], stage: u64, roots: &[u64], line: &[u8]) -> u64 {
    turn(t, STAGE, stage, stage);
    let place = number(line, 1, 1);
    turn(t, PLACE, place, std::num::wrapping_add_u64(place, 1));
    get(listed(roots), place as usize)
}

// The walk of a root, written out or as its length and sum.
pub(crate) fn walked(t: &mut [u64], m: &[u64], roots: &[u64], list: &mut [u64], line: &[u8]) {
    let root = [root_at(t, 4, roots, line)];
    let mut stack = [0u64; 512];
    let r = walk(m, &root, list, &mut stack);
    match r {
        Ok(n) => {
            let ids = part(list, 0, n as usize);
            if byte_at(line, 0) == b'w' {
                compare(t, n, number(line, 3, 2));
                compare_list(t, ids, after(line, 7), 2);
            } else {
                compare(t, n, number(line, 3, 4));
                compare(t, walk_sum(ids), number(line, 11, 8));
            }
        }
        Err(_) => put(t, WRONG, 1),
    }
}

// Reference counts are accepted, or refused by this number. All walks have come.
pub(crate) fn counted(t: &mut [u64], m: &mut [u64], roots: &[u64], line: &[u8]) {
    turn(t, STAGE, 4, 5);
    turn(t, PLACE, listed(roots).len() as u64, 0);
    put(t, COUNTED, 0);
    let refused = refusal::number(count_references(m, listed(roots)));
    compare(t, refused, number(line, 1, 1));
}

// Ids rise.
fn rise(t: &mut [u64], i: u64) {
    let least = get(t, COUNTED);
    must(t, least <= i);
    put(t, COUNTED, std::num::wrapping_add_u64(i, 1));
}

fn compare_pair(t: &mut [u64], m: &[u64], pair: &[u8]) {
    let i = number(pair, 0, 2);
    rise(t, i);
    let references = calls::read(m, i).map(|n| n.references);
    compare_count(t, references, number(pair, 4, 4));
}

fn compare_pairs(t: &mut [u64], m: &[u64], text: &[u8]) {
    for pair in text.chunks_exact(12) {
        compare_pair(t, m, pair);
    }
    must(t, text.len() % 12 == 0);
}

// Ids and their reference counts.
pub(crate) fn pairs(t: &mut [u64], m: &[u64], line: &[u8]) {
    turn(t, STAGE, 5, 5);
    compare_pairs(t, m, after(line, 1));
}

// The sorted distinct counts below a root.
pub(crate) fn distinct(t: &mut [u64], m: &[u64], roots: &[u64], line: &[u8]) {
    let root = root_at(t, 5, roots, line);
    let mut list = [0u64; 512];
    let r = distinct_counts(m, root, &mut list);
    match r {
        Ok(n) => {
            compare(t, n, number(line, 3, 2));
            compare_list(t, part(&list, 0, n as usize), after(line, 7), 4);
        }
        Err(_) => put(t, WRONG, 1),
    }
}

// The highest degree of the roots, and one more.
pub(crate) fn highest_of(t: &mut [u64], m: &[u64], roots: &[u64], line: &[u8]) {
    turn(t, STAGE, 2, 3);
    compare_degree(t, highest(m, listed(roots)), number(line, 1, 4));
}

// The visible nodes of the roots.
pub(crate) fn visible_of(t: &mut [u64], m: &[u64], roots: &[u64], line: &[u8]) {
    turn(t, STAGE, 3, 4);
    compare_count(t, visible(m, listed(roots)), number(line, 1, 2));
}

// A dump ends: where counts were accepted, each root's distinct ones have come.
pub(crate) fn end(t: &mut [u64], roots: &[u64]) {
    turn(t, STAGE, 5, 0);
    if get(t, COUNTED) != 0 {
        turn(t, PLACE, listed(roots).len() as u64, 0);
    } else {
        turn(t, PLACE, 0, 0);
    }
}
