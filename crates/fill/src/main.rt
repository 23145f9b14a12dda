// The program `fill` (docs/FILL.md): the frame program's lines, and rows whose new columns it fills, one a line. Answers as soon as lines have been read;
// its memory is constant.
#![tactic(auto)]

ghost use Rattle.std.specs.Prelude.{ℕ, ◌≤◌, length, take, IfOk, OnErr};
ghost use Rattle.framing.specs.States.{lent};
ghost use Rattle.stream.specs.Stream.{stream, Roomy, Poured};
ghost use Rattle.desk.specs.Desks.{desk};
ghost use Rattle.desk_line.specs.declared.feed.Step.{Step};
ghost use Rattle.desk_line.specs.Feeds.{fill_program, fill_room, Deskable};

use classes::least::LEAST;
use classes::table::TABLE;
use desk_line::feed::{
    CHALLENGES, MOST_CHARACTERS, ROW_AUX, ROW_MAIN, Step, answer_line, feed, start,
};
use std::io;
use std::io::Read;
use stream::feed::{LIST, NUMBERS, ROOTS, WORDS};

const PART: usize = 65536;

const OUT: usize = 131072;

// Feeds a part of the input, and writes the answers whenever there is no room for one more. What is kept then.
// After a failed write some of the part has been fed.
fn pour(
    rt: &impl Print,
    m: &mut [u64],
    roots: &mut [u64],
    main: &mut [u64],
    aux: &mut [u64],
    numbers: &mut [u64],
    table: &mut [u64],
    least: &mut [u64],
    challenges: &mut [u64],
    row_main: &mut [u64],
    row_aux: &mut [u64],
    line: &mut [u8],
    part: &[u8],
    out: &mut [u8],
    kept: Step,
) -> io::Result<Step>
    requires { Roomy 131075 line.old kept.kept fill_room out.old 0 × Deskable m.old numbers.old table.old least.old main.old aux.old challenges.old kept.given row_main.old row_aux.old }
    ensures poured { IfOk result (λ s. Poured fill_program (stream (desk (lent m.old roots.old main.old aux.old) kept.latest (take kept.given challenges.old)) (take kept.kept line.old)) part.now (desk (lent m.new roots.new main.new aux.new) s.latest (take s.given challenges.new)) line.new s.kept × Deskable m.new numbers.new table.new least.new main.new aux.new challenges.new s.given row_main.new row_aux.new) }
    ensures err { OnErr result ((fed : ℕ) × ((s : Step) × (Poured fill_program (stream (desk (lent m.old roots.old main.old aux.old) kept.latest (take kept.given challenges.old)) (take kept.kept line.old)) (take fed part.now) (desk (lent m.new roots.new main.new aux.new) s.latest (take s.given challenges.new)) line.new s.kept × Deskable m.new numbers.new table.new least.new main.new aux.new challenges.new s.given row_main.new row_aux.new))) }
{
    let mut s = kept;
    let mut from: usize = 0;
    while from < part.len() {
        let fed = feed(
            m,
            roots,
            main,
            aux,
            numbers,
            table,
            least,
            challenges,
            row_main,
            row_aux,
            line,
            &part[from..],
            out,
            s,
        );
        s = fed.step;
        let written = s.at;
        rt.write_all(&out[..written])?;
        from += fed.taken;
    }
    Ok(s)
}

// What follows the last line feed is a line if it isn't empty.
fn finish(
    rt: &impl Print,
    m: &mut [u64],
    roots: &mut [u64],
    main: &mut [u64],
    aux: &mut [u64],
    numbers: &mut [u64],
    table: &mut [u64],
    least: &mut [u64],
    challenges: &mut [u64],
    row_main: &mut [u64],
    row_aux: &mut [u64],
    line: &[u8],
    out: &mut [u8],
    kept: Step,
) -> io::Result<()>
    requires { (fill_room ≤ length out.old) × Deskable m.old numbers.old table.old least.old main.old aux.old challenges.old kept.given row_main.old row_aux.old }
{
    if line.len() == 0 {
        return Ok(());
    }
    let latest = kept.latest;
    let s = Step {
        kept: 0,
        at: 0,
        latest,
        given: kept.given,
    };
    let last = answer_line(
        m, roots, main, aux, numbers, table, least, challenges, row_main, row_aux, line, out, s,
    );
    let n = last.at;
    rt.write_all(&out[..n])
}

// Answers all of the input, with memory that has not been used yet.
fn serve<R: Read>(
    rt: &impl Print,
    input: &mut R,
    m: &mut [u64],
    roots: &mut [u64],
    main: &mut [u64],
    aux: &mut [u64],
    numbers: &mut [u64],
    table: &mut [u64],
    least: &mut [u64],
    challenges: &mut [u64],
    row_main: &mut [u64],
    row_aux: &mut [u64],
    line: &mut [u8],
    part: &mut [u8],
    out: &mut [u8],
) -> io::Result<()>
    requires { Roomy 131075 line.old 0 fill_room out.old 0 × Deskable m.old numbers.old table.old least.old main.old aux.old challenges.old 0 row_main.old row_aux.old }
{
    let mut s = start();
    // A proved loop has to end, and nothing says that the input does: no input takes so many turns.
    for _ in 0..u64::MAX {
        let n = input.read(part)?;
        if n == 0 {
            break;
        }
        let p = &part[..n];
        s = pour(
            rt, m, roots, main, aux, numbers, table, least, challenges, row_main, row_aux, line, p,
            out, s,
        )?;
    }
    let kept = s.kept;
    let line = &line[..kept];
    finish(
        rt, m, roots, main, aux, numbers, table, least, challenges, row_main, row_aux, line, out, s,
    )
}

fn main(rt: HostRuntime) -> io::Result<()> {
    let mut input = rt.stdin();
    let mut m = [0u64; WORDS];
    let mut roots = [0u64; ROOTS];
    let mut main = [0u64; LIST];
    let mut aux = [0u64; LIST];
    let mut numbers = [0u64; NUMBERS];
    let mut table = [0u64; TABLE];
    let mut least = [0u64; LEAST];
    let mut challenges = [0u64; CHALLENGES];
    let mut row_main = [0u64; ROW_MAIN];
    let mut row_aux = [0u64; ROW_AUX];
    let mut line = [0u8; MOST_CHARACTERS];
    let mut part = [0u8; PART];
    let mut out = [0u8; OUT];
    serve(
        &rt,
        &mut input,
        &mut m,
        &mut roots,
        &mut main,
        &mut aux,
        &mut numbers,
        &mut table,
        &mut least,
        &mut challenges,
        &mut row_main,
        &mut row_aux,
        &mut line,
        &mut part,
        &mut out,
    )
}
