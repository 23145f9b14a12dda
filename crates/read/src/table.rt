// The lent tables of an evaluation: TABLE, a length not divisible as its layout needs, or a read beyond it; and BAD_WORD.
ghost use Rattle.std.specs.Prelude.{◌≡◌, false, ◌++◌, ◌<◌};
ghost use Rattle.layout.specs.Lists.{any, up_to};
ghost use Rattle.layout.specs.Words.{used};
ghost use Rattle.layout.specs.NotCircuit.{not_circuit, bad_word};
ghost use Rattle.reading.specs.Refusals.{bad_table};
ghost use Rattle.read.specs.Lent.{columns_of, uneven, beyond, beyond_at, Pathed, PathedFrom};

use circuit::check::bad_word;
use circuit::place::expression_at;
use layout::node::{Expression, Position};

// How many columns one row has: a main table is one word a column, an auxiliary table three; and how many challenges there are.
#[derive(Clone, Copy)]
pub struct Columns {
    pub main: u64,
    pub aux: u64,
    pub challenges: u64,
}

// The row kind is the number of rows.
fn columns_of(m: &[u64], main: &[u64], aux: &[u64], challenges: &[u64]) -> Columns
    requires { not_circuit m.now ≡ false }
    ensures { result ≡ columns_of m.now main.now aux.now challenges.now }
{
    let rows = m[0] as usize;
    Columns {
        main: (main.len() / rows) as u64,
        aux: (aux.len() / (3 * rows)) as u64,
        challenges: (challenges.len() / 3) as u64,
    }
}

// A length that its layout does not divide.
fn is_uneven(m: &[u64], main: &[u64], aux: &[u64], challenges: &[u64]) -> bool
    requires { not_circuit m.now ≡ false }
    ensures { result ≡ uneven m.now main.now aux.now challenges.now }
{
    let rows = m[0] as usize;
    main.len() % rows != 0 || aux.len() % (3 * rows) != 0 || challenges.len() % 3 != 0
}

// Whether an expression reads beyond the tables.
fn reads_beyond(c: Columns, e: Expression) -> bool
    ensures { result ≡ beyond c e }
{
    match e {
        Expression::Base(_) => false,
        Expression::Extension(_) => false,
        Expression::Challenge(k) => c.challenges <= k,
        Expression::Operation(_, _, _) => false,
        Expression::Input(q) => match q {
            Position::Main(k) => c.main <= k,
            Position::Aux(k) => c.aux <= k,
            Position::NextMain(k) => c.main <= k,
            Position::NextAux(k) => c.aux <= k,
        },
    }
}

// Whether node i is below the roots, which is to have a path count, and reads beyond the tables.
fn is_beyond(m: &[u64], counts: &[u64], c: Columns, i: u64) -> bool
    requires { Pathed m.now counts.now × (i < used m.now) }
    ensures { result ≡ beyond_at m.now counts.now c i }
{
    counts[i as usize] != 0 && reads_beyond(c, expression_at(m, i))
}

// A node with a path count that reads beyond the tables.
pub fn any_beyond(m: &[u64], counts: &[u64], c: Columns) -> bool
    requires { Pathed m.now counts.now }
    ensures { result ≡ any (beyond_at m.now counts.now c) (up_to (used m.now)) }
{
    for i in 0..m[1] {
        if is_beyond(m, counts, c, i) {
            return true;
        }
    }
    false
}

// A length not divisible as its layout needs, or a node below i that reads beyond the tables.
pub(crate) fn bad_table(
    m: &[u64],
    counts: &[u64],
    i: u64,
    main: &[u64],
    aux: &[u64],
    challenges: &[u64],
) -> bool
    requires { PathedFrom m.now counts.now i }
    ensures { result ≡ bad_table m.now i main.now aux.now challenges.now }
{
    if is_uneven(m, main, aux, challenges) {
        return true;
    }
    let c = columns_of(m, main, aux, challenges);
    any_beyond(m, counts, c)
}

// A word at or above p among eight, with no jump from one to the next: with jumps, where the code lies can cost 1.8 times the time.
fn bad_eight(ws: &[u64; 8]) -> bool
    ensures { result ≡ any bad_word ws.now }
{
    ws.iter().fold(false, |bad, &w| bad | bad_word(w))
}

// A word at or above p: eight at a time, and then the rest.
pub fn any_bad(ws: &[u64]) -> bool
    ensures { result ≡ any bad_word ws.now }
{
    let (eights, rest) = ws.as_chunks::<8>();
    eights.iter().any(|eight| bad_eight(eight)) || rest.iter().any(|&w| bad_word(w))
}

// Every word of the three lists is a given word.
pub(crate) fn bad_given(main: &[u64], aux: &[u64], challenges: &[u64]) -> bool
    ensures { result ≡ any bad_word (main.now ++ aux.now ++ challenges.now) }
{
    any_bad(main) || any_bad(aux) || any_bad(challenges)
}
