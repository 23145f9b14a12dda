// Runs the files of data/ through the frame program's own function, or those of rows through the program `fill`'s, each from a fresh state, and compares
// the answers with the files beside them. Says how many inputs were compared and how many differ.
#![tactic(auto)]

ghost use Rattle.std.specs.Prelude.{◌+◌, ◌≤◌, ◌≡◌, length, IfOk};
ghost use Rattle.kept.specs.Keeps.{Keeps};

use classes::least::LEAST;
use classes::table::TABLE;
use desk_line::feed as rows;
use inputs::read_full;
use std::fs::Files;
use std::{fs, io};
use stream::feed::{LIST, MOST_CHARACTERS, NUMBERS, ROOTS, WORDS, answer_line, feed};

// What an answer may take; the longest file.
const ANSWER: usize = 4107;

const FILE: usize = 65536;

// Room for the answers to a file with rows, and for the longest one beyond.
const OUT: usize = 131072;

// The answer to what follows the last line feed, if it is a line and there is room; the place behind it.
fn last(
    m: &mut [u64],
    roots: &mut [u64],
    main: &mut [u64],
    aux: &mut [u64],
    numbers: &mut [u64],
    table: &mut [u64],
    least: &mut [u64],
    line: &[u8],
    out: &mut [u8],
    at: usize,
) -> usize
    requires { (at ≤ length out.old) × ((length main.old ≡ 512) × ((length aux.old ≡ 512) × Keeps m.old numbers.old table.old least.old)) }
    ensures { result ≤ length out.old }
{
    if line.len() == 0 {
        return at;
    }
    if out.len() - at < ANSWER {
        return at;
    }
    answer_line(m, roots, main, aux, numbers, table, least, line, out, at)
}

// Whether an input is answered as is wanted, from a fresh state. A line that wasn't taken, for lack of room, would lack its answer.
fn answered(input: &[u8], want: &[u8]) -> bool {
    let mut m = [0u64; WORDS];
    let mut roots = [0u64; ROOTS];
    let mut main = [0u64; LIST];
    let mut aux = [0u64; LIST];
    let mut numbers = [0u64; NUMBERS];
    let mut table = [0u64; TABLE];
    let mut least = [0u64; LEAST];
    let mut line = [0u8; MOST_CHARACTERS];
    let mut out = [0u8; FILE];
    let fed = feed(
        &mut m,
        &mut roots,
        &mut main,
        &mut aux,
        &mut numbers,
        &mut table,
        &mut least,
        &mut line,
        0,
        input,
        &mut out,
    );
    let kept = fed.step.kept;
    let end = last(
        &mut m,
        &mut roots,
        &mut main,
        &mut aux,
        &mut numbers,
        &mut table,
        &mut least,
        &line[..kept],
        &mut out,
        fed.step.at,
    );
    &out[..end] == want
}

// The same of the program `fill`. Each line of these files ends, and each answer has room.
fn filled(input: &[u8], want: &[u8]) -> bool {
    let mut m = [0u64; WORDS];
    let mut roots = [0u64; ROOTS];
    let mut main = [0u64; LIST];
    let mut aux = [0u64; LIST];
    let mut numbers = [0u64; NUMBERS];
    let mut table = [0u64; TABLE];
    let mut least = [0u64; LEAST];
    let mut challenges = [0u64; rows::CHALLENGES];
    let mut row_main = [0u64; rows::ROW_MAIN];
    let mut row_aux = [0u64; rows::ROW_AUX];
    let mut line = [0u8; rows::MOST_CHARACTERS];
    let mut out = [0u8; OUT];
    let step = rows::start();
    let fed = rows::feed(
        &mut m,
        &mut roots,
        &mut main,
        &mut aux,
        &mut numbers,
        &mut table,
        &mut least,
        &mut challenges,
        &mut row_main,
        &mut row_aux,
        &mut line,
        input,
        &mut out,
        step,
    );
    let end = fed.step.at;
    &out[..end] == want
}

fn differs(rt: &impl Print, right: bool, name: &str) -> io::Result<u64>
    ensures { IfOk result (λ n. n ≤ 1) }
{
    if right {
        println!(rt; "{name} agrees")?;
        return Ok(0);
    }
    println!(rt; "{name} DIFFERS")?;
    Ok(1)
}

// A file of frames, or with rows, and the file of its answers.
fn file<R: Files + Print>(rt: &R, frames: &str, answers: &str, with_rows: bool) -> io::Result<u64>
    ensures { IfOk result (λ n. n ≤ 1) }
{
    let mut input = [0u8; FILE];
    let mut want = [0u8; FILE];
    let n = match fs::open(rt, frames) {
        Ok(mut from) => read_full(&mut from, &mut input)?,
        Err(_) => return differs(rt, false, frames),
    };
    let k = match fs::open(rt, answers) {
        Ok(mut with) => read_full(&mut with, &mut want)?,
        Err(_) => return differs(rt, false, answers),
    };
    let right = if with_rows {
        filled(&input[..n], &want[..k])
    } else {
        answered(&input[..n], &want[..k])
    };
    differs(rt, right, frames)
}

// Circuits.
fn circuits<R: Files + Print>(rt: &R) -> io::Result<u64>
    ensures { IfOk result (λ n. n ≤ 4) }
{
    let a = file(rt, "x4.txt", "x4.answers", false)? + file(rt, "x2a2.txt", "x2a2.answers", false)?;
    let b = file(rt, "two_rows.txt", "two_rows.answers", false)?
        + file(
            rt,
            "next_row_columns.txt",
            "next_row_columns.answers",
            false,
        )?;
    Ok(a + b)
}

// Refusals, and lines that are hard to read.
fn lines<R: Files + Print>(rt: &R) -> io::Result<u64>
    ensures { IfOk result (λ n. n ≤ 6) }
{
    let a = file(rt, "refused.txt", "refused.answers", false)?
        + file(rt, "no_frames.txt", "no_frames.answers", false)?;
    let b = file(rt, "roots.txt", "roots.answers", false)?
        + file(rt, "bytes.txt", "bytes.answers", false)?;
    let c = file(rt, "empty.txt", "empty.answers", false)?
        + file(rt, "no_line_feed.txt", "no_line_feed.answers", false)?;
    Ok(a + b + c)
}

// Rows of x⁴, of a circuit of two rows, of one that reads a challenge; bad lines, each before one that is answered.
fn with_rows<R: Files + Print>(rt: &R) -> io::Result<u64>
    ensures { IfOk result (λ n. n ≤ 4) }
{
    let a = file(rt, "fill_x4.txt", "fill_x4.answers", true)?
        + file(rt, "fill_two_rows.txt", "fill_two_rows.answers", true)?;
    let b = file(rt, "fill_challenges.txt", "fill_challenges.answers", true)?
        + file(rt, "fill_refused.txt", "fill_refused.answers", true)?;
    Ok(a + b)
}

fn main(rt: HostRuntime) -> io::Result<()> {
    let differ = circuits(&rt)? + lines(&rt)? + with_rows(&rt)?;
    println!(rt; "14 compared, {differ} differ")
}
