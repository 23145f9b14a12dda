// A row of a line, and its new cells.
ghost use Rattle.std.specs.Prelude.{◌≡◌, List, ℕ, ◌+◌, ◌*◌, ◌≤◌, length, take};
ghost use Rattle.layout.specs.Words.{row_kind};
ghost use Rattle.layout.specs.Answers.{answer_number};
ghost use Rattle.framing.specs.Digits.{bytes_of, hexadecimal};
ghost use Rattle.framing.specs.States.{lent};
ghost use Rattle.frame.specs.Puts.{Put};
ghost use Rattle.filling.specs.Calls.{fill_call};
ghost use Rattle.desk.specs.Desks.{desk};
ghost use Rattle.desk.specs.Lines.{too_many, too_wide, row_bytes, is_rows, main_rows, aux_rows, row_refusal, row_answer, fill_bytes};
ghost use Rattle.desk_line.specs.Reading.{Stored, OneOrTwo};
ghost use Rattle.desk_line.specs.Rows.{Narrow, Places, Rowable, main_words, aux_words, filled_as, TablesFilled};

use crate::words::{put_words, read_rows};
use circuit::refusal::{number, number_of};
use desk::Latest;
use filler::calls::fill;
use frame::digits::all_digits;
use frame::reply::put_byte;
use frame::respond::kind_of;
use layout::refusal::Refusal;

const MOST: u64 = 1024;

fn too_many(old: u64, new: u64) -> bool
    ensures { result ≡ too_many (old + new) }
{
    if MOST < old {
        return true;
    }
    MOST - old < new
}

// More columns of one kind than a row may have.
fn too_wide(latest: Latest) -> bool
    ensures { result ≡ too_wide latest }
{
    if too_many(latest.main_count, latest.mains) {
        return true;
    }
    too_many(latest.aux_count, latest.auxs)
}

// So many of each row.
fn in_rows(rows: u64, n: u64) -> u64
    requires { OneOrTwo rows × (n ≤ 65536) }
    ensures { result ≡ rows * n }
{
    if rows == 2 {
        return n + n;
    }
    n
}

fn row_bytes(latest: Latest) -> u64
    requires { Narrow latest }
    ensures { result ≡ row_bytes latest }
{
    8 * (latest.main_count + 3 * latest.aux_count)
}

// Digits, two for each byte.
fn is_rows(latest: Latest, rows: u64, line: &[u8]) -> bool
    requires { Narrow latest × OneOrTwo rows }
    ensures { result ≡ is_rows latest rows line.now }
{
    if !all_digits(line) {
        return false;
    }
    let bytes = in_rows(rows, row_bytes(latest));
    line.len() as u64 == 2 * (1 + bytes)
}

fn row_refusal(latest: Latest, rows: u64, line: &[u8]) -> Result<(), Refusal>
    requires { OneOrTwo rows }
    ensures { answer_number result ≡ row_refusal latest rows line.now }
{
    if !latest.lowered {
        return Err(Refusal::Frame);
    }
    if too_wide(latest) {
        return Err(Refusal::NoRoom);
    }
    if is_rows(latest, rows, line) {
        return Ok(());
    }
    Err(Refusal::Frame)
}

// The tables that fill is asked with.
fn read_tables(latest: Latest, rows: u64, line: &[u8], row_main: &mut [u64], row_aux: &mut [u64])
    requires { Narrow latest × (OneOrTwo rows × Places row_main.old row_aux.old) }
    ensures { Stored row_main.old 0 (main_words latest rows) (main_rows latest rows (bytes_of line.now)) row_main.new × Stored row_aux.old 0 (aux_words latest rows) (aux_rows latest rows (bytes_of line.now)) row_aux.new }
{
    let step = row_bytes(latest) as usize;
    let old = latest.main_count as usize;
    read_rows(row_main, line, old, latest.mains as usize, 1, step, rows);
    let olds = 3 * latest.aux_count as usize;
    let news = 3 * latest.auxs as usize;
    read_rows(row_aux, line, olds, news, 1 + 8 * old, step, rows);
}

// How many places of a list count.
fn listed(n: u64, list: &[u64]) -> usize
    ensures { (result ≤ length list.now) × (take result list.now ≡ take n list.now) }
{
    if n < list.len() as u64 {
        return n as usize;
    }
    list.len()
}

// Fills the tables with the latest lowering's lists.
fn fill_tables(
    m: &[u64],
    main: &[u64],
    aux: &[u64],
    latest: Latest,
    challenges: &[u64],
    row_main: &mut [u64],
    row_aux: &mut [u64],
) -> u64
    requires { Narrow latest × Rowable m.now row_main.old row_aux.old }
    ensures { TablesFilled (fill_call latest.main_count latest.aux_count m.now (take latest.mains main.now) (take latest.auxs aux.now) challenges.now (take (main_words latest (row_kind m.now)) row_main.old) (take (aux_words latest (row_kind m.now)) row_aux.old)) result (main_words latest (row_kind m.now)) (aux_words latest (row_kind m.now)) row_main.new row_aux.new }
{
    let rows = kind_of(m);
    let a = listed(latest.mains, main);
    let b = listed(latest.auxs, aux);
    let w = in_rows(rows, latest.main_count + latest.mains) as usize;
    let v = in_rows(rows, 3 * latest.aux_count + 3 * latest.auxs) as usize;
    number(fill(
        m,
        &main[..a],
        &aux[..b],
        latest.main_count,
        latest.aux_count,
        &mut row_main[..w],
        &mut row_aux[..v],
        challenges,
    ))
}

// The number, and after 00 the new cells of this row.
fn put_row(answer: &mut [u8], n: u64, latest: Latest, row_main: &[u64], row_aux: &[u64]) -> usize
    requires { Narrow latest × Places row_main.now row_aux.now }
    ensures { Put answer.old 0 (hexadecimal (fill_bytes latest (filled_as n row_main.now row_aux.now))) answer.new result }
{
    let at = put_byte(answer, 0, n);
    if n != 0 {
        return at;
    }
    let from = latest.main_count as usize;
    let to = from + latest.mains as usize;
    let next = put_words(answer, at, &row_main[from..to]);
    let begin = 3 * latest.aux_count as usize;
    let end = begin + 3 * latest.auxs as usize;
    put_words(answer, next, &row_aux[begin..end])
}

pub(crate) fn put_answer(
    m: &[u64],
    main: &[u64],
    aux: &[u64],
    latest: Latest,
    challenges: &[u64],
    row_main: &mut [u64],
    row_aux: &mut [u64],
    line: &[u8],
    answer: &mut [u8],
) -> usize
    requires { Rowable m.now row_main.old row_aux.old }
    ensures { (roots : List ℕ) → Put answer.old 0 (hexadecimal (row_answer (desk (lent m.now roots main.now aux.now) latest challenges.now) line.now)) answer.new result }
{
    let rows = kind_of(m);
    if let Err(r) = row_refusal(latest, rows, line) {
        return put_byte(answer, 0, number_of(r));
    }
    read_tables(latest, rows, line, row_main, row_aux);
    let filled = fill_tables(m, main, aux, latest, challenges, row_main, row_aux);
    put_row(answer, filled, latest, row_main, row_aux)
}
