// Document 01's frame program: answers the frames on standard input, a line for each line, as soon as they have been read. Its memory is constant.
#![tactic(auto)]

ghost use Rattle.std.specs.Prelude.{ℕ, ◌≤◌, length, take, IfOk, OnErr};
ghost use Rattle.framing.specs.States.{lent};
ghost use Rattle.kept.specs.Keeps.{Keeps};
ghost use Rattle.stream.specs.Stream.{stream, Roomy, Poured};
ghost use Rattle.stream.specs.Frames.{frames_program, room};

use classes::least::LEAST;
use classes::table::TABLE;
use std::io;
use std::io::Read;
use stream::feed::{LIST, MOST_CHARACTERS, NUMBERS, ROOTS, WORDS, answer_line, feed};

const PART: usize = 65536;

// Feeds a part of the input, and writes the answers whenever there is no room for one more. How many characters are kept of a line that has not ended.
// After a failed write some of the part has been fed.
fn pour(
    rt: &impl Print,
    m: &mut [u64],
    roots: &mut [u64],
    main: &mut [u64],
    aux: &mut [u64],
    numbers: &mut [u64],
    table: &mut [u64],
    least: &mut [u64],
    line: &mut [u8],
    kept: usize,
    part: &[u8],
    out: &mut [u8],
) -> io::Result<usize>
    requires { Roomy 51 line.old kept (room main.old aux.old) out.old 0 × Keeps m.old numbers.old table.old least.old }
    ensures poured { IfOk result (λ after. Poured frames_program (stream (lent m.old roots.old main.old aux.old) (take kept line.old)) part.now (lent m.new roots.new main.new aux.new) line.new after) }
    ensures err { OnErr result ((fed : ℕ) × ((after : ℕ) × Poured frames_program (stream (lent m.old roots.old main.old aux.old) (take kept line.old)) (take fed part.now) (lent m.new roots.new main.new aux.new) line.new after)) }
    ensures keeps { Keeps m.new numbers.new table.new least.new }
{
    let mut count = kept;
    let mut from: usize = 0;
    while from < part.len() {
        let fed = feed(
            m,
            roots,
            main,
            aux,
            numbers,
            table,
            least,
            line,
            count,
            &part[from..],
            out,
        );
        let written = fed.step.at;
        rt.write_all(&out[..written])?;
        count = fed.step.kept;
        from += fed.taken;
    }
    Ok(count)
}

// What follows the last line feed is a line if it isn't empty.
fn finish(
    rt: &impl Print,
    m: &mut [u64],
    roots: &mut [u64],
    main: &mut [u64],
    aux: &mut [u64],
    numbers: &mut [u64],
    table: &mut [u64],
    least: &mut [u64],
    line: &[u8],
    out: &mut [u8],
) -> io::Result<()>
    requires { (room main.old aux.old ≤ length out.old) × Keeps m.old numbers.old table.old least.old }
{
    if line.len() == 0 {
        return Ok(());
    }
    let n = answer_line(m, roots, main, aux, numbers, table, least, line, out, 0);
    rt.write_all(&out[..n])
}

// Answers all of the input, with memory that has not been used yet.
fn serve<R: Read>(
    rt: &impl Print,
    input: &mut R,
    m: &mut [u64],
    roots: &mut [u64],
    main: &mut [u64],
    aux: &mut [u64],
    numbers: &mut [u64],
    table: &mut [u64],
    least: &mut [u64],
    line: &mut [u8],
    part: &mut [u8],
    out: &mut [u8],
) -> io::Result<()>
    requires { Roomy 51 line.old 0 (room main.old aux.old) out.old 0 × Keeps m.old numbers.old table.old least.old }
{
    let mut kept: usize = 0;
    // A proved loop has to end, and nothing says that the input does: no input takes so many turns.
    for _ in 0..u64::MAX {
        let n = input.read(part)?;
        if n == 0 {
            break;
        }
        let p = &part[..n];
        kept = pour(
            rt, m, roots, main, aux, numbers, table, least, line, kept, p, out,
        )?;
    }
    let line = &line[..kept];
    finish(rt, m, roots, main, aux, numbers, table, least, line, out)
}

fn main(rt: HostRuntime) -> io::Result<()> {
    let mut input = rt.stdin();
    let mut m = [0u64; WORDS];
    let mut roots = [0u64; ROOTS];
    let mut main = [0u64; LIST];
    let mut aux = [0u64; LIST];
    let mut numbers = [0u64; NUMBERS];
    let mut table = [0u64; TABLE];
    let mut least = [0u64; LEAST];
    let mut line = [0u8; MOST_CHARACTERS];
    let mut part = [0u8; PART];
    let mut out = [0u8; PART];
    serve(
        &rt,
        &mut input,
        &mut m,
        &mut roots,
        &mut main,
        &mut aux,
        &mut numbers,
        &mut table,
        &mut least,
        &mut line,
        &mut part,
        &mut out,
    )
}
