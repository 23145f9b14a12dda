// A lowering is tried: rows of pseudo-random words are filled, then every listed constraint is zero on them, and the lowered roots have the values
// that the roots had before.
use crate::words::{
    BEFORE, CONSTRAINTS, DIFFER, RANDOM, ROOTS, ROWS, add, copy, get, must, part, put,
};
use arithmetic::Triple;
use field::base;
use filler::calls::fill_rows;
use read::value::evaluate;

// Three rows are filled: all rows of a single-row circuit, all but the last of a dual-row one.
const FILLED: u64 = 3;

// Room for rows of 64 columns, old and new, four of them; and 64 challenges. All but a main column are three words.
const MAIN: usize = 256;

const AUX: usize = 768;

const CHALLENGES: usize = 192;

// The number of rows that the circuit reads, the old columns and the new ones.
#[derive(Clone, Copy)]
pub(crate) struct Shape {
    pub(crate) kind: u64,
    pub(crate) main: u64,
    pub(crate) aux: u64,
    pub(crate) mains: u64,
    pub(crate) auxs: u64,
}

// How many words a row has: the old columns and the new ones. A lowering without a new column may be given any count, also one below the columns that
// the roots read: its rows have eight at least.
fn main_row(s: Shape) -> usize {
    let n = std::num::wrapping_add_u64(s.main, s.mains) as usize;
    if s.mains == 0 {
        if n < 8 {
            return 8;
        }
    }
    n
}

fn aux_row(s: Shape) -> usize {
    times(3, std::num::wrapping_add_u64(s.aux, s.auxs) as usize)
}

// So many rows of so many words; rows are at most four, of less than 1,024 words.
fn times(rows: u64, width: usize) -> usize {
    let w = width % 1024;
    match rows {
        0 => 0,
        1 => w,
        2 => 2 * w,
        3 => 3 * w,
        _ => 4 * w,
    }
}

// As many rows of a table as the circuit reads, from row r on.
fn window(table: &[u64], r: u64, kind: u64, width: usize) -> &[u64] {
    let end = std::num::wrapping_add_u64(r, kind);
    part(table, times(r, width), times(end, width))
}

// The next pseudo-random word, below p.
fn random(t: &mut [u64]) -> u64 {
    let x = base::add(
        base::multiply(get(t, RANDOM), 6364136223846793005),
        1442695040888963407,
    );
    put(t, RANDOM, x);
    x
}

fn scatter(t: &mut [u64], table: &mut [u64]) {
    for word in table {
        *word = random(t);
    }
}

// How many of these nodes are zero.
fn zeros(m: &[u64], list: &[u64], main: &[u64], aux: &[u64], challenges: &[u64]) -> u64 {
    let zero = Triple {
        c0: 0,
        c1: 0,
        c2: 0,
    };
    let zeros = list
        .iter()
        .filter(|&&q| evaluate(m, q, main, aux, challenges) == Ok(zero));
    zeros.count() as u64
}

// How many of these roots have the values that the old ones had.
fn agreeing(
    old: &[u64],
    old_roots: &[u64],
    old_main: &[u64],
    old_aux: &[u64],
    m: &[u64],
    roots: &[u64],
    main: &[u64],
    aux: &[u64],
    challenges: &[u64],
) -> u64 {
    let pairs = old_roots.iter().zip(roots);
    let agree = pairs.filter(|&(&q, &r)| {
        let v = evaluate(old, q, old_main, old_aux, challenges);
        v.is_ok() && v == evaluate(m, r, main, aux, challenges)
    });
    agree.count() as u64
}

// So many were tried, and so many are as they have to be.
fn count(t: &mut [u64], i: usize, tried: usize, right: u64) {
    let n = tried as u64;
    add(t, i, n);
    add(t, DIFFER, std::num::wrapping_sub_u64(n, right));
}

// The constraints of one list in a row, before and after.
fn try_list(
    t: &mut [u64],
    m: &[u64],
    list: &[u64],
    old_main: &[u64],
    old_aux: &[u64],
    main: &[u64],
    aux: &[u64],
    challenges: &[u64],
) {
    add(t, BEFORE, zeros(m, list, old_main, old_aux, challenges));
    count(
        t,
        CONSTRAINTS,
        list.len(),
        zeros(m, list, main, aux, challenges),
    );
}

// One row more; whether it was filled.
fn note(t: &mut [u64], done: bool) {
    must(t, done);
    add(t, ROWS, 1);
}

// Row r, in the tables before and after.
fn try_row(
    t: &mut [u64],
    old: &[u64],
    old_roots: &[u64],
    old_mains: &[u64],
    old_auxs: &[u64],
    m: &[u64],
    roots: &[u64],
    mains: &[u64],
    auxs: &[u64],
    main_table: &[u64],
    aux_table: &[u64],
    challenges: &[u64],
    s: Shape,
    done: bool,
    r: u64,
) {
    let old_main = window(old_mains, r, s.kind, main_row(s));
    let old_aux = window(old_auxs, r, s.kind, aux_row(s));
    let main = window(main_table, r, s.kind, main_row(s));
    let aux = window(aux_table, r, s.kind, aux_row(s));
    try_list(t, m, mains, old_main, old_aux, main, aux, challenges);
    try_list(t, m, auxs, old_main, old_aux, main, aux, challenges);
    let right = agreeing(
        old, old_roots, old_main, old_aux, m, roots, main, aux, challenges,
    );
    count(t, ROOTS, old_roots.len(), right);
    note(t, done);
}

// Fills the rows of tables that begin with these words, if they have as many.
fn fill_tables(
    m: &[u64],
    mains: &[u64],
    auxs: &[u64],
    s: Shape,
    main: &mut [u64],
    aux: &mut [u64],
    challenges: &[u64],
) -> bool {
    let rows = std::num::wrapping_sub_u64(std::num::wrapping_add_u64(s.kind, FILLED), 1);
    let n = times(rows, main_row(s));
    let k = times(rows, aux_row(s));
    if main.len() < n {
        return false;
    }
    if aux.len() < k {
        return false;
    }
    fill_rows(
        m,
        mains,
        auxs,
        s.main,
        s.aux,
        rows,
        &mut main[..n],
        &mut aux[..k],
        challenges,
    )
    .is_ok()
}

// All cells get words, old columns and new ones; those of the rows are kept.
fn make_tables(
    t: &mut [u64],
    old_main: &mut [u64],
    old_aux: &mut [u64],
    main: &mut [u64],
    aux: &mut [u64],
    challenges: &mut [u64],
) {
    scatter(t, main);
    scatter(t, aux);
    scatter(t, challenges);
    copy(old_main, main);
    copy(old_aux, aux);
}

// Every filled row.
fn try_rows(
    t: &mut [u64],
    old: &[u64],
    old_roots: &[u64],
    old_main: &[u64],
    old_aux: &[u64],
    m: &[u64],
    roots: &[u64],
    mains: &[u64],
    auxs: &[u64],
    main: &[u64],
    aux: &[u64],
    challenges: &[u64],
    s: Shape,
    done: bool,
) {
    for r in 0..FILLED {
        try_row(
            t, old, old_roots, old_main, old_aux, m, roots, mains, auxs, main, aux, challenges, s,
            done, r,
        );
    }
}

// With tables that are lent, for all words and for the words before.
fn try_tables(
    t: &mut [u64],
    old: &[u64],
    old_roots: &[u64],
    old_main: &mut [u64],
    old_aux: &mut [u64],
    m: &[u64],
    roots: &[u64],
    mains: &[u64],
    auxs: &[u64],
    main: &mut [u64],
    aux: &mut [u64],
    challenges: &mut [u64],
    s: Shape,
) {
    make_tables(t, old_main, old_aux, main, aux, challenges);
    let done = fill_tables(m, mains, auxs, s, main, aux, challenges);
    try_rows(
        t, old, old_roots, old_main, old_aux, m, roots, mains, auxs, main, aux, challenges, s, done,
    );
}

// The circuit and its roots before and after, and the lists of the constraints.
pub(crate) fn try_lowering(
    t: &mut [u64],
    old: &[u64],
    old_roots: &[u64],
    m: &[u64],
    roots: &[u64],
    mains: &[u64],
    auxs: &[u64],
    s: Shape,
) {
    let mut old_main = [0u64; MAIN];
    let mut old_aux = [0u64; AUX];
    let mut main = [0u64; MAIN];
    let mut aux = [0u64; AUX];
    let mut challenges = [0u64; CHALLENGES];
    try_tables(
        t,
        old,
        old_roots,
        &mut old_main,
        &mut old_aux,
        m,
        roots,
        mains,
        auxs,
        &mut main,
        &mut aux,
        &mut challenges,
        s,
    );
}
