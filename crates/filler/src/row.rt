// One row: its values by the plan, then the new columns' into the part of the row that is lent on, which begins at the old columns' count: old cells
// are not in reach of what writes.
ghost use Rattle.std.specs.Prelude.{◌≡◌, ℕ, ◌+◌, ◌-◌, ◌*◌, ◌<◌, ◌≤◌, length};
ghost use Rattle.std.proofs.lemmas.List.Edits.{sets};
ghost use Rattle.circuit.specs.Rank.{at};
ghost use Rattle.filling.specs.Promise.{window_of};
ghost use Rattle.filler.specs.Running.{ran};
ghost use Rattle.filler.specs.Rowing.{words_for, triple_for, triples_for, Storing, StoringWide, RowFillable, RowDone};

use crate::plan::Shape;
use crate::run::run;
use arithmetic::Triple;
use field::extension;
use read::value::{entry_at, keep};

// Stores the words of the first so many targets.
fn store_words(part: &mut [u64], targets: &[u64], many: u64, words: &[u64])
    requires { (many ≤ length part.old) × ((many ≤ length targets.now) × ((k : ℕ) → k < many → at targets.now k < length words.now)) }
    ensures { part.new ≡ sets part.old 0 (words_for words.now targets.now many) }
{
    for (k, &t) in targets[..many as usize].iter().enumerate() {
        part[k] = words[t as usize];
    }
}

// The value that stands in an entry: a word is lifted.
fn triple_for(bases: &[u64], words: &[u64], triples: &[u64], t: u64) -> Triple
    requires { (t < length bases.now) × ((t < length words.now) × (3 * t + 2 < length triples.now)) }
    ensures { result ≡ triple_for bases.now (words.now, triples.now) t }
{
    let place = t as usize;
    if bases[place] == 1 {
        return extension::lift(words[place]);
    }
    entry_at(triples, t)
}

// Stores the values of so many targets, from one on.
fn store_triples(
    part: &mut [u64],
    targets: &[u64],
    from: u64,
    many: u64,
    bases: &[u64],
    words: &[u64],
    triples: &[u64],
)
    requires { (3 * many ≤ length part.old) × ((from + many ≤ length targets.now) × ((k : ℕ) → k < from + many → (at targets.now k < length bases.now) × ((at targets.now k < length words.now) × (3 * at targets.now k + 2 < length triples.now)))) }
    ensures { part.new ≡ sets part.old 0 (triples_for bases.now (words.now, triples.now) targets.now from many) }
{
    for k in 0..many {
        let x = triple_for(bases, words, triples, targets[(from + k) as usize]);
        keep(part, k, x);
    }
}

// The values of row r: a dual-row circuit reads the next row too.
fn work_out(
    plan: &[u64],
    many: u64,
    targets: &[u64],
    bases: &[u64],
    s: Shape,
    kind: u64,
    r: u64,
    main: &[u64],
    aux: &[u64],
    words: &mut [u64],
    triples: &mut [u64],
)
    requires { RowFillable s kind r many plan.now targets.now bases.now main.now aux.now words.old triples.old }
    ensures { (words.new, triples.new) ≡ ran plan.now (window_of kind s.row r main.now) (window_of kind (3 * s.wide) r aux.now) many (words.old, triples.old) }
{
    let row = s.row as usize;
    let wide = 3 * (s.wide as usize);
    let start = (r as usize) * row;
    let end = start + (kind as usize) * row;
    let aux_start = (r as usize) * wide;
    let aux_end = aux_start + (kind as usize) * wide;
    run(
        plan,
        many,
        &main[start..end],
        &aux[aux_start..aux_end],
        words,
        triples,
    );
}

// Row r of the main table, from the old columns' count to its end, is lent on.
fn store_main(main: &mut [u64], s: Shape, r: u64, targets: &[u64], words: &[u64])
    requires { Storing s r main.old targets.now words.now }
    ensures { main.new ≡ sets main.old (r * s.row + s.main) (words_for words.now targets.now s.fresh) }
{
    let row = s.row as usize;
    let start = (r as usize) * row;
    let from = start + (s.main as usize);
    let end = start + row;
    store_words(&mut main[from..end], targets, s.fresh, words);
}

// Row r of the auxiliary table likewise, three words a column.
fn store_aux(
    aux: &mut [u64],
    s: Shape,
    r: u64,
    targets: &[u64],
    bases: &[u64],
    words: &[u64],
    triples: &[u64],
)
    requires { StoringWide s r aux.old targets.now bases.now words.now triples.now }
    ensures { aux.new ≡ sets aux.old (r * (3 * s.wide) + 3 * s.aux) (triples_for bases.now (words.now, triples.now) targets.now s.fresh (s.items - s.fresh)) }
{
    let wide = 3 * (s.wide as usize);
    let start = (r as usize) * wide;
    let from = start + 3 * (s.aux as usize);
    let end = start + wide;
    store_triples(
        &mut aux[from..end],
        targets,
        s.fresh,
        s.items - s.fresh,
        bases,
        words,
        triples,
    );
}

// Fills row r. Reading is done when writing begins: two parts of one table need not be lent at once.
pub(crate) fn fill_row(
    plan: &[u64],
    many: u64,
    targets: &[u64],
    bases: &[u64],
    s: Shape,
    kind: u64,
    r: u64,
    main: &mut [u64],
    aux: &mut [u64],
    words: &mut [u64],
    triples: &mut [u64],
)
    requires { RowFillable s kind r many plan.now targets.now bases.now main.old aux.old words.old triples.old }
    ensures { RowDone s kind r many plan.now targets.now bases.now main.old aux.old words.old triples.old main.new aux.new words.new triples.new }
{
    work_out(
        plan, many, targets, bases, s, kind, r, main, aux, words, triples,
    );
    store_main(main, s, r, targets, words);
    store_aux(aux, s, r, targets, bases, words, triples);
}
