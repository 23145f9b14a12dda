// A part of the input, and the answers to the lines that end in it. What is kept from part to part: the circuit's words, the roots, the two lists,
// class tables that fit the circuit, and the beginning of a line that has not ended.
ghost use Rattle.std.specs.Prelude.{◌≡◌, ◌+◌, ◌≤◌, length, take};
ghost use Rattle.framing.specs.States.{lent};
ghost use Rattle.kept.specs.Keeps.{Keeps};
ghost use Rattle.stream.specs.Stream.{stream, fed, AnsweredLine, Advanced, Roomy, Taken};
ghost use Rattle.stream.specs.Frames.{frames_program, room};

use crate::line::gather;
use kept::calls::frame;

// A frame has at most 50 characters, and a line of 51 is none: so many are kept of a line.
pub const MOST_CHARACTERS: usize = 51;

// The frame program's memory: 512 nodes; the number of roots and 64 roots; 512 places in each lowering list; a class number for each node that a
// circuit may have.
pub const WORDS: usize = 3074;

pub const ROOTS: usize = 65;

pub const LIST: usize = 512;

pub const NUMBERS: usize = 4096;

// How many places an answer may take.
fn room_for(main: &[u64], aux: &[u64]) -> usize
    ensures { result ≡ room main.now aux.now }
{
    11 + 4 * (main.len() + aux.len())
}

// Answers a line behind what was written before.
pub fn answer_line(
    m: &mut [u64],
    roots: &mut [u64],
    main: &mut [u64],
    aux: &mut [u64],
    numbers: &mut [u64],
    table: &mut [u64],
    least: &mut [u64],
    line: &[u8],
    out: &mut [u8],
    at: usize,
) -> usize
    requires { (at + room main.old aux.old ≤ length out.old) × Keeps m.old numbers.old table.old least.old }
    ensures { AnsweredLine frames_program (lent m.old roots.old main.old aux.old) (lent m.new roots.new main.new aux.new) line.now out.old at out.new result × Keeps m.new numbers.new table.new least.new }
{
    at + frame(
        m,
        roots,
        main,
        aux,
        numbers,
        table,
        least,
        line,
        &mut out[at..],
    )
}

// How many characters are kept of a line that has not ended, and the place behind what is written.
#[derive(Clone, Copy)]
pub struct Step {
    pub kept: usize,
    pub at: usize,
}

// How many bytes of a part were taken, and what is kept and written then.
#[derive(Clone, Copy)]
pub struct Fed {
    pub taken: usize,
    pub step: Step,
}

// A line, or as much of it as the part has.
fn take_line(
    m: &mut [u64],
    roots: &mut [u64],
    main: &mut [u64],
    aux: &mut [u64],
    numbers: &mut [u64],
    table: &mut [u64],
    least: &mut [u64],
    line: &mut [u8],
    part: &[u8],
    out: &mut [u8],
    s: Step,
) -> Fed
    requires { Roomy 51 line.old s.kept (room main.old aux.old) out.old s.at × Keeps m.old numbers.old table.old least.old }
    ensures { Advanced (fed frames_program (stream (lent m.old roots.old main.old aux.old) (take s.kept line.old)) (take result.taken part.now)) (lent m.new roots.new main.new aux.new) (take result.step.kept line.new) out.old s.at out.new result.step.at × (Taken 51 part.now result.taken result.step.kept × Keeps m.new numbers.new table.new least.new) }
{
    let at = s.at;
    let g = gather(line, s.kept, part);
    let taken = g.taken;
    let kept = g.kept;
    if !g.ended {
        let step = Step { kept, at };
        return Fed { taken, step };
    }
    let line = &line[..kept];
    let next = answer_line(m, roots, main, aux, numbers, table, least, line, out, at);
    let step = Step { kept: 0, at: next };
    Fed { taken, step }
}

// Feeds a part of the input, as far as there is room for one more answer each time. Where `out` has that room at first, some of the part is taken.
pub fn feed(
    m: &mut [u64],
    roots: &mut [u64],
    main: &mut [u64],
    aux: &mut [u64],
    numbers: &mut [u64],
    table: &mut [u64],
    least: &mut [u64],
    line: &mut [u8],
    kept: usize,
    part: &[u8],
    out: &mut [u8],
) -> Fed
    requires { Roomy 51 line.old kept (room main.old aux.old) out.old 0 × Keeps m.old numbers.old table.old least.old }
    ensures { Advanced (fed frames_program (stream (lent m.old roots.old main.old aux.old) (take kept line.old)) (take result.taken part.now)) (lent m.new roots.new main.new aux.new) (take result.step.kept line.new) out.old 0 out.new result.step.at × (Taken 51 part.now result.taken result.step.kept × Keeps m.new numbers.new table.new least.new) }
{
    let room = room_for(main, aux);
    let mut s = Step { kept, at: 0 };
    let mut taken: usize = 0;
    while taken < part.len() {
        if out.len() - s.at < room {
            return Fed { taken, step: s };
        }
        let rest = &part[taken..];
        let f = take_line(
            m, roots, main, aux, numbers, table, least, line, rest, out, s,
        );
        s = f.step;
        taken += f.taken;
    }
    Fed { taken, step: s }
}
