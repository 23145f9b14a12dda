// Request 1's calls. They ask nothing: circuit, lists, tables and words are tested, once a call and in document 02's order, before a word is written.
ghost use Rattle.std.specs.Prelude.{◌≡◌, ◌*◌, ◌/◌, ◌≤◌, length};
ghost use Rattle.layout.specs.Words.{row_kind};
ghost use Rattle.filling.specs.Answers.{told_fill};
ghost use Rattle.filling.specs.Calls.{row_filled, each_row, fill_call, fill_rows_call};
ghost use Rattle.filler.specs.Filling.{shape_of, Fillable, TestedRows, GivenTables};

use crate::plan::Shape;
use crate::prepare::{fix, prepare};
use crate::row::fill_row;
use circuit::check::check;
use circuit::place::HEADER;
use fillable::given::{bad_given, filled_rows};
use fillable::lowered::not_lowered;
use fillable::rows::bad_rows;
use layout::refusal::Refusal;
use paths::ids::bad_id;
use read::base_test::bases;

// Fills so many rows, from the last to the first: a next row is filled before it is read.
fn fill_each(
    m: &[u64],
    mains: &[u64],
    auxs: &[u64],
    challenges: &[u64],
    plan: &[u64],
    many: u64,
    targets: &[u64],
    bases: &[u64],
    s: Shape,
    filled: u64,
    main: &mut [u64],
    aux: &mut [u64],
    words: &mut [u64],
    triples: &mut [u64],
)
    requires { Fillable s filled many m.now mains.now auxs.now challenges.now targets.now bases.now plan.now main.old aux.old words.old triples.old }
    ensures { (main.new, aux.new) ≡ each_row (row_kind m.now) (row_filled s.main s.aux m.now mains.now auxs.now challenges.now) s.row (3 * s.wide) filled (main.old, aux.old) }
{
    let kind = m[0];
    for r in (0..filled).rev() {
        fill_row(
            plan, many, targets, bases, s, kind, r, main, aux, words, triples,
        );
    }
}

// Makes the plan and fills the rows. Without a new column there is nothing to do, and nothing bounds the number of rows then.
fn fill_all(
    m: &[u64],
    mains: &[u64],
    auxs: &[u64],
    challenges: &[u64],
    bases: &[u64],
    s: Shape,
    filled: u64,
    targets: &mut [u64],
    main: &mut [u64],
    aux: &mut [u64],
)
    requires { TestedRows s filled m.now mains.now auxs.now challenges.now targets.old bases.now main.old aux.old }
    ensures { (main.new, aux.new) ≡ each_row (row_kind m.now) (row_filled s.main s.aux m.now mains.now auxs.now challenges.now) s.row (3 * s.wide) filled (main.old, aux.old) }
{
    if s.items == 0 {
        return;
    }
    let mut plan = [0u64; 16384];
    let many = prepare(m, mains, auxs, challenges, bases, s, targets, &mut plan);
    let mut words = [0u64; 4096];
    let mut triples = [0u64; 12288];
    fix(m, challenges, &mut words, &mut triples);
    fill_each(
        m,
        mains,
        auxs,
        challenges,
        &plan,
        many,
        targets,
        bases,
        s,
        filled,
        main,
        aux,
        &mut words,
        &mut triples,
    );
}

// Tables that have passed TABLE: how many columns a row has, old and new. An auxiliary column is three words.
fn shape_of(
    mains: &[u64],
    auxs: &[u64],
    main_count: u64,
    aux_count: u64,
    rows: u64,
    main: &[u64],
    aux: &[u64],
) -> Shape
    requires { 1 ≤ rows }
    ensures { (result ≡ shape_of main_count aux_count mains.now auxs.now (length main.now / rows) (length aux.now / (3 * rows))) × ((length main.now ≤ 1152921504606846976) × (length aux.now ≤ 1152921504606846976)) }
{
    let n = rows as usize;
    Shape {
        main: main_count,
        fresh: mains.len() as u64,
        row: (main.len() / n) as u64,
        aux: aux_count,
        wide: (aux.len() / 3 / n) as u64,
        items: (mains.len() + auxs.len()) as u64,
    }
}

// Tables and words that have passed: NOT_LOWERED is the last test.
fn fill_lowered(
    m: &[u64],
    order: &[u64],
    rank: &[u64],
    mains: &[u64],
    auxs: &[u64],
    main_count: u64,
    aux_count: u64,
    rows: u64,
    main: &mut [u64],
    aux: &mut [u64],
    challenges: &[u64],
) -> Result<(), Refusal>
    requires { GivenTables main_count aux_count rows m.now order.now rank.now mains.now auxs.now challenges.now main.old aux.old }
    ensures { told_fill result (main.new, aux.new) ≡ fill_rows_call main_count aux_count m.now mains.now auxs.now challenges.now rows main.old aux.old }
{
    let mut bits = [0u64; 4096];
    bases(m, rank, &mut bits);
    let mut targets = [0u64; 8192];
    if not_lowered(
        m,
        order,
        rank,
        mains,
        auxs,
        main_count,
        aux_count,
        &bits,
        &mut targets,
    ) {
        return Err(Refusal::NotLowered);
    }
    let s = shape_of(mains, auxs, main_count, aux_count, rows, main, aux);
    let filled = filled_rows(m, rows);
    fill_all(
        m,
        mains,
        auxs,
        challenges,
        &bits,
        s,
        filled,
        &mut targets,
        main,
        aux,
    );
    Ok(())
}

// Fills the new columns of rows that stand one after the other. A dual-row circuit reads the row after as the next row, and fills all but the last.
pub fn fill_rows(
    m: &[u64],
    mains: &[u64],
    auxs: &[u64],
    main_count: u64,
    aux_count: u64,
    rows: u64,
    main: &mut [u64],
    aux: &mut [u64],
    challenges: &[u64],
) -> Result<(), Refusal>
    ensures { told_fill result (main.new, aux.new) ≡ fill_rows_call main_count aux_count m.now mains.now auxs.now challenges.now rows main.old aux.old }
{
    let mut order = [0u64; 4096];
    let mut rank = [0u64; 4096];
    if !check(m, &mut order, &mut rank) {
        return Err(Refusal::NotCircuit);
    }
    if bad_id(m, mains) || bad_id(m, auxs) {
        return Err(Refusal::BadId);
    }
    if bad_rows(
        m, &order, &rank, mains, auxs, main_count, aux_count, rows, main, aux, challenges,
    ) {
        return Err(Refusal::Table);
    }
    if bad_given(
        m, mains, auxs, main_count, aux_count, rows, main, aux, challenges,
    ) {
        return Err(Refusal::BadWord);
    }
    fill_lowered(
        m, &order, &rank, mains, auxs, main_count, aux_count, rows, main, aux, challenges,
    )
}

// Fills the new columns of one row; of a dual-row circuit both rows are given, and the current one is filled.
pub fn fill(
    m: &[u64],
    mains: &[u64],
    auxs: &[u64],
    main_count: u64,
    aux_count: u64,
    main: &mut [u64],
    aux: &mut [u64],
    challenges: &[u64],
) -> Result<(), Refusal>
    ensures { told_fill result (main.new, aux.new) ≡ fill_call main_count aux_count m.now mains.now auxs.now challenges.now main.old aux.old }
{
    if m.len() < HEADER {
        return Err(Refusal::NotCircuit);
    }
    fill_rows(
        m, mains, auxs, main_count, aux_count, m[0], main, aux, challenges,
    )
}
