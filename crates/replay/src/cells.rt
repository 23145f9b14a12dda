// The tables that a circuit is evaluated on, in one list of lent words: 256 main columns and the same of the next row, 256 auxiliary columns and the
// same of the next row, and 256 challenges. A main column is a word, the others are three.
ghost use Rattle.std.specs.Prelude.{◌<◌};

use crate::tally::{must, put};
use crate::text::{after, number};

pub(crate) const MAIN: usize = 0;

pub(crate) const NEXT_MAIN: usize = 256;

pub(crate) const AUX: usize = 512;

pub(crate) const NEXT_AUX: usize = 1280;

pub(crate) const CHALLENGES: usize = 2048;

pub(crate) const TABLES: usize = 2816;

// Three words from `at` on.
fn put_triple(tables: &mut [u64], at: usize, text: &[u8])
    requires { at < 4096 }
{
    put(tables, at, number(text, 0, 8));
    put(tables, at + 1, number(text, 16, 8));
    put(tables, at + 2, number(text, 32, 8));
}

// A cell: its kind, its column or number, its value.
pub(crate) fn cell(t: &mut [u64], tables: &mut [u64], line: &[u8]) {
    let index = number(line, 3, 2);
    must(t, index < 256);
    let i = (index % 256) as usize;
    let value = after(line, 7);
    match number(line, 1, 1) {
        2 => put_triple(tables, CHALLENGES + 3 * i, value),
        5 => put(tables, MAIN + i, number(value, 0, 8)),
        6 => put_triple(tables, AUX + 3 * i, value),
        7 => put(tables, NEXT_MAIN + i, number(value, 0, 8)),
        _ => put_triple(tables, NEXT_AUX + 3 * i, value),
    }
}
