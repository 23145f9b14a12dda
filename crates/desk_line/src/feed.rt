// A part of the input, and the answers to the lines that end in it: as `stream::feed` does for the frame program.
ghost use Rattle.std.specs.Prelude.{◌≡◌, ◌+◌, ◌≤◌, length, take};
ghost use Rattle.framing.specs.States.{lent};
ghost use Rattle.stream.specs.Stream.{stream, fed, AnsweredLine, Advanced, Roomy, Taken};
ghost use Rattle.desk.specs.Desks.{desk, fresh_desk};
ghost use Rattle.desk_line.specs.Feeds.{fill_program, fill_room, Deskable};

use crate::calls::answer;
use desk::Latest;
use stream::line::gather;

// The longest frame has 131,074 characters, and a line of 131,075 is none: so many are kept of a line.
pub const MOST_CHARACTERS: usize = 131075;

// How many places an answer may take.
pub const ANSWER: usize = 65539;

// Places for the words of 1,024 challenges, and for two rows of 1,024 columns of each kind.
pub const CHALLENGES: usize = 3072;

pub const ROW_MAIN: usize = 2048;

pub const ROW_AUX: usize = 6144;

// What is kept beside the lent memory: how many characters of a line that has not ended, the place behind what is written, the latest lower frame,
// and how many words of challenges are given.
#[derive(Clone, Copy)]
pub struct Step {
    pub kept: usize,
    pub at: usize,
    pub latest: Latest,
    pub given: usize,
}

// Before the first byte: no character is kept and nothing written, no lower frame was accepted, and no challenges are given.
pub fn start() -> Step
    ensures { (result.kept ≡ 0) × ((result.at ≡ 0) × ((result.given ≡ 0) × (result.latest ≡ fresh_desk.latest))) }
{
    let latest = Latest {
        lowered: false,
        main_count: 0,
        aux_count: 0,
        mains: 0,
        auxs: 0,
    };
    Step {
        kept: 0,
        at: 0,
        latest,
        given: 0,
    }
}

// Answers a line behind what was written before.
pub fn answer_line(
    m: &mut [u64],
    roots: &mut [u64],
    main: &mut [u64],
    aux: &mut [u64],
    numbers: &mut [u64],
    table: &mut [u64],
    least: &mut [u64],
    challenges: &mut [u64],
    row_main: &mut [u64],
    row_aux: &mut [u64],
    line: &[u8],
    out: &mut [u8],
    s: Step,
) -> Step
    requires { (s.at + fill_room ≤ length out.old) × Deskable m.old numbers.old table.old least.old main.old aux.old challenges.old s.given row_main.old row_aux.old }
    ensures { AnsweredLine fill_program (desk (lent m.old roots.old main.old aux.old) s.latest (take s.given challenges.old)) (desk (lent m.new roots.new main.new aux.new) result.latest (take result.given challenges.new)) line.now out.old s.at out.new result.at × ((result.kept ≡ 0) × Deskable m.new numbers.new table.new least.new main.new aux.new challenges.new result.given row_main.new row_aux.new) }
{
    let at = s.at;
    let before = s.latest;
    let t = answer(
        m,
        roots,
        main,
        aux,
        numbers,
        table,
        least,
        before,
        challenges,
        s.given,
        row_main,
        row_aux,
        line,
        &mut out[at..],
    );
    let latest = t.latest;
    let next = at + t.written;
    Step {
        kept: 0,
        at: next,
        latest,
        given: t.given,
    }
}

// How many bytes of a part were taken, and what is kept and written then.
#[derive(Clone, Copy)]
pub struct Fed {
    pub taken: usize,
    pub step: Step,
}

// A line, or as much of it as the part has.
fn take_line(
    m: &mut [u64],
    roots: &mut [u64],
    main: &mut [u64],
    aux: &mut [u64],
    numbers: &mut [u64],
    table: &mut [u64],
    least: &mut [u64],
    challenges: &mut [u64],
    row_main: &mut [u64],
    row_aux: &mut [u64],
    line: &mut [u8],
    part: &[u8],
    out: &mut [u8],
    s: Step,
) -> Fed
    requires { Roomy 131075 line.old s.kept fill_room out.old s.at × Deskable m.old numbers.old table.old least.old main.old aux.old challenges.old s.given row_main.old row_aux.old }
    ensures { Advanced (fed fill_program (stream (desk (lent m.old roots.old main.old aux.old) s.latest (take s.given challenges.old)) (take s.kept line.old)) (take result.taken part.now)) (desk (lent m.new roots.new main.new aux.new) result.step.latest (take result.step.given challenges.new)) (take result.step.kept line.new) out.old s.at out.new result.step.at × (Taken 131075 part.now result.taken result.step.kept × Deskable m.new numbers.new table.new least.new main.new aux.new challenges.new result.step.given row_main.new row_aux.new) }
{
    let g = gather(line, s.kept, part);
    let taken = g.taken;
    let kept = g.kept;
    if !g.ended {
        let latest = s.latest;
        let step = Step {
            kept,
            at: s.at,
            latest,
            given: s.given,
        };
        return Fed { taken, step };
    }
    let line = &line[..kept];
    let step = answer_line(
        m, roots, main, aux, numbers, table, least, challenges, row_main, row_aux, line, out, s,
    );
    Fed { taken, step }
}

// Feeds a part of the input, as far as there is room for one more answer each time, written from the front on. Where `out` has that room at first, some
// of the part is taken.
pub fn feed(
    m: &mut [u64],
    roots: &mut [u64],
    main: &mut [u64],
    aux: &mut [u64],
    numbers: &mut [u64],
    table: &mut [u64],
    least: &mut [u64],
    challenges: &mut [u64],
    row_main: &mut [u64],
    row_aux: &mut [u64],
    line: &mut [u8],
    part: &[u8],
    out: &mut [u8],
    from: Step,
) -> Fed
    requires { Roomy 131075 line.old from.kept fill_room out.old 0 × Deskable m.old numbers.old table.old least.old main.old aux.old challenges.old from.given row_main.old row_aux.old }
    ensures { Advanced (fed fill_program (stream (desk (lent m.old roots.old main.old aux.old) from.latest (take from.given challenges.old)) (take from.kept line.old)) (take result.taken part.now)) (desk (lent m.new roots.new main.new aux.new) result.step.latest (take result.step.given challenges.new)) (take result.step.kept line.new) out.old 0 out.new result.step.at × (Taken 131075 part.now result.taken result.step.kept × Deskable m.new numbers.new table.new least.new main.new aux.new challenges.new result.step.given row_main.new row_aux.new) }
{
    let latest = from.latest;
    let mut s = Step {
        kept: from.kept,
        at: 0,
        latest,
        given: from.given,
    };
    let mut taken: usize = 0;
    while taken < part.len() {
        if out.len() - s.at < ANSWER {
            return Fed { taken, step: s };
        }
        let rest = &part[taken..];
        let f = take_line(
            m, roots, main, aux, numbers, table, least, challenges, row_main, row_aux, line, rest,
            out, s,
        );
        s = f.step;
        taken += f.taken;
    }
    Fed { taken, step: s }
}
