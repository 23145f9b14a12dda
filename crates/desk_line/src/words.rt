// Words of eight bytes: from a line into a table, and from a table into an answer.
ghost use Rattle.std.specs.Prelude.{◌+◌, ◌*◌, ◌^◌, ◌<◌, ◌≤◌, length, replicate};
ghost use Rattle.framing.specs.Digits.{bytes_of, hexadecimal};
ghost use Rattle.frame.specs.Puts.{Put};
ghost use Rattle.desk.specs.Words.{words_at, row_at, rows_at, four, eight, eights};
ghost use Rattle.desk_line.specs.Reading.{Stored, Readable, RowReadable, RowsReadable};

use frame::digits::number;
use frame::reply::put_two;

// So many words, after so many bytes, into a table from a place on.
pub(crate) fn read_words(table: &mut [u64], at: usize, line: &[u8], after: usize, n: usize)
    requires { Readable table.old at after n }
    ensures { Stored table.old at n (words_at n after (bytes_of line.now)) table.new }
{
    for k in 0..n {
        table[at + k] = number(line, 8, after + 8 * k);
    }
}

// Zeros behind them.
fn clear(table: &mut [u64], at: usize, n: usize)
    requires { at + n ≤ length table.old }
    ensures { Stored table.old at n (replicate n 0) table.new }
{
    table[at..at + n].fill(0);
}

// A row: its words, and zeros in the new cells.
fn read_row(table: &mut [u64], at: usize, line: &[u8], after: usize, old: usize, new: usize)
    requires { RowReadable table.old at after old new }
    ensures { Stored table.old at (old + new) (row_at old new after (bytes_of line.now)) table.new }
{
    read_words(table, at, line, after, old);
    clear(table, at + old, new);
}

// One row, or two.
pub(crate) fn read_rows(
    table: &mut [u64],
    line: &[u8],
    old: usize,
    new: usize,
    first: usize,
    step: usize,
    rows: u64,
)
    requires { RowsReadable table.old old new first step rows }
    ensures { Stored table.old 0 (rows * (old + new)) (rows_at old new first step (bytes_of line.now) rows) table.new }
{
    read_row(table, 0, line, first, old, new);
    if rows == 2 {
        read_row(table, old + new, line, first + step, old, new);
    }
}

// A number in four bytes.
fn put_four(answer: &mut [u8], at: usize, n: u64) -> usize
    requires { at + 8 < 2 ^ 64 }
    ensures { Put answer.old at (hexadecimal (four n)) answer.new result }
{
    let next = put_two(answer, at, n / 0x1_0000);
    put_two(answer, next, n % 0x1_0000)
}

// In eight.
fn put_eight(answer: &mut [u8], at: usize, n: u64) -> usize
    requires { at + 16 < 2 ^ 64 }
    ensures { Put answer.old at (hexadecimal (eight n)) answer.new result }
{
    let next = put_four(answer, at, n / 0x1_0000_0000);
    put_four(answer, next, n % 0x1_0000_0000)
}

// Each in eight.
pub(crate) fn put_words(answer: &mut [u8], at: usize, words: &[u64]) -> usize
    requires { at + 16 * length words.now < 2 ^ 64 }
    ensures { Put answer.old at (hexadecimal (eights words.now)) answer.new result }
{
    let mut next = at;
    for &w in words {
        next = put_eight(answer, next, w);
    }
    next
}
