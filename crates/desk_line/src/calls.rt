// One line of bytes in, one line out.
ghost use Rattle.std.specs.Prelude.{◌≡◌, List, ℕ, ◌≤◌, length, get_or, take};
ghost use Rattle.framing.specs.States.{State, lent};
ghost use Rattle.kept.specs.Keeps.{Keeps};
ghost use Rattle.desk.specs.declared.Latest.{Latest};
ghost use Rattle.desk.specs.Desks.{desk, lowered, latest_after};
ghost use Rattle.desk.specs.Lines.{told, frame_told, challenges_told, row_answer};
ghost use Rattle.desk.specs.Program.{desked, desked_by, desk_call};
ghost use Rattle.desk_line.specs.Rows.{Rowable};
ghost use Rattle.desk_line.specs.Kinds.{line_kind, Desking};

use crate::given::give;
use crate::row::put_answer;
use circuit::refusal::number;
use desk::Latest;
use frame::reply::{put, put_byte, write};
use frame::request::read;
use frame::respond::kind_of;
use framing::{Reply, Request};
use kept::respond::respond;

const LINE_FEED: u8 = 10;

// The character at a place; 0 if there is none.
fn at(line: &[u8], i: usize) -> u8
    ensures { result ≡ get_or line.now i 0 }
{
    if line.len() <= i {
        return 0;
    }
    line[i]
}

// 1 for challenges, 2 for a row, 0 for a frame of document 01.
fn line_kind(m: &[u64], line: &[u8]) -> u64
    ensures { result ≡ line_kind m.now line.now }
{
    if kind_of(m) == 0 {
        return 0;
    }
    if at(line, 0) != b'0' {
        return 0;
    }
    let second = at(line, 1);
    if second == b'b' {
        return 1;
    }
    if second == b'c' {
        return 2;
    }
    0
}

// The counts of a lower frame that was accepted.
fn lowered(latest: Latest, a: u64, b: u64, reply: Reply) -> Latest
    ensures { result ≡ lowered latest a b reply }
{
    match reply {
        Reply::Bare(_) => latest,
        Reply::Id(_, _) => latest,
        Reply::Counts(n, k, l) => {
            if n != 0 {
                return latest;
            }
            Latest {
                lowered: true,
                main_count: a,
                aux_count: b,
                mains: k,
                auxs: l,
            }
        }
    }
}

fn latest_after(latest: Latest, request: Request, reply: Reply) -> Latest
    ensures { result ≡ latest_after latest request reply }
{
    match request {
        Request::Start(_) => latest,
        Request::Input(_, _) => latest,
        Request::Challenge(_) => latest,
        Request::Base(_) => latest,
        Request::Extension(_) => latest,
        Request::Operation(_, _, _) => latest,
        Request::Subtract(_, _) => latest,
        Request::Negate(_) => latest,
        Request::Root(_) => latest,
        Request::Lower(_, a, b) => lowered(latest, a, b, reply),
        Request::Nothing => latest,
    }
}

// How long the answer is, and the latest lower frame then.
#[derive(Clone, Copy)]
pub struct Framed {
    pub written: usize,
    pub latest: Latest,
}

// A frame of document 01.
fn frame_line(
    m: &mut [u64],
    roots: &mut [u64],
    main: &mut [u64],
    aux: &mut [u64],
    numbers: &mut [u64],
    table: &mut [u64],
    least: &mut [u64],
    latest: Latest,
    line: &[u8],
    answer: &mut [u8],
) -> Framed
    requires { Keeps m.old numbers.old table.old least.old }
    ensures { ((challenges : List ℕ) → desked result.written (desk (lent m.new roots.new main.new aux.new) result.latest challenges) answer.new ≡ desked_by (frame_told (desk (lent m.old roots.old main.old aux.old) latest challenges) line.now) answer.old) × Keeps m.new numbers.new table.new least.new }
{
    let request = read(line);
    let reply = respond(m, roots, main, aux, numbers, table, least, request);
    let written = write(answer, reply, main, aux);
    let after = latest_after(latest, request, reply);
    Framed {
        written,
        latest: after,
    }
}

// How long the answer is, and how many words of challenges are kept then.
#[derive(Clone, Copy)]
pub struct Kept {
    pub written: usize,
    pub words: usize,
}

// Challenges.
fn challenges_line(challenges: &mut [u64], given: usize, line: &[u8], answer: &mut [u8]) -> Kept
    requires { (3072 ≤ length challenges.old) × (given ≤ 3072) }
    ensures { ((s : State) (l : Latest) → desked result.written (desk s l (take result.words challenges.new)) answer.new ≡ desked_by (challenges_told (desk s l (take given challenges.old)) line.now) answer.old) × (result.words ≤ 3072) }
{
    let g = give(challenges, given, line);
    let next = put_byte(answer, 0, number(g.answer));
    let written = put(answer, next, LINE_FEED);
    Kept {
        written,
        words: g.words,
    }
}

// A row.
fn row_line(
    m: &[u64],
    main: &[u64],
    aux: &[u64],
    latest: Latest,
    challenges: &[u64],
    row_main: &mut [u64],
    row_aux: &mut [u64],
    line: &[u8],
    answer: &mut [u8],
) -> usize
    requires { Rowable m.now row_main.old row_aux.old }
    ensures { (roots : List ℕ) → desked result (desk (lent m.now roots main.now aux.now) latest challenges.now) answer.new ≡ desked_by (told (desk (lent m.now roots main.now aux.now) latest challenges.now) (row_answer (desk (lent m.now roots main.now aux.now) latest challenges.now) line.now)) answer.old }
{
    let next = put_answer(
        m, main, aux, latest, challenges, row_main, row_aux, line, answer,
    );
    put(answer, next, LINE_FEED)
}

// How long the answer is, the latest lower frame then, and how many words of challenges are kept then.
#[derive(Clone, Copy)]
pub struct Told {
    pub written: usize,
    pub latest: Latest,
    pub given: usize,
}

// Answers a line, given without its line feed: how many bytes the answer has, its line feed included. They are written as far as there are places.
// Kept from line to line: what `kept::calls::frame` keeps; the latest lower frame; the challenges' words, 3,072 places, of which so many are given.
// The rows' tables are for this call only: 2,048 and 6,144 places.
pub fn answer(
    m: &mut [u64],
    roots: &mut [u64],
    main: &mut [u64],
    aux: &mut [u64],
    numbers: &mut [u64],
    table: &mut [u64],
    least: &mut [u64],
    latest: Latest,
    challenges: &mut [u64],
    given: usize,
    row_main: &mut [u64],
    row_aux: &mut [u64],
    line: &[u8],
    answer: &mut [u8],
) -> Told
    requires { Keeps m.old numbers.old table.old least.old × Desking challenges.old given row_main.old row_aux.old }
    ensures { (desked result.written (desk (lent m.new roots.new main.new aux.new) result.latest (take result.given challenges.new)) answer.new ≡ desk_call (desk (lent m.old roots.old main.old aux.old) latest (take given challenges.old)) line.now answer.old) × (Keeps m.new numbers.new table.new least.new × (result.given ≤ 3072)) }
{
    let kind = line_kind(m, line);
    if kind == 1 {
        let k = challenges_line(challenges, given, line, answer);
        return Told {
            written: k.written,
            latest,
            given: k.words,
        };
    }
    if kind == 2 {
        let words = &challenges[..given];
        let written = row_line(m, main, aux, latest, words, row_main, row_aux, line, answer);
        return Told {
            written,
            latest,
            given,
        };
    }
    let f = frame_line(
        m, roots, main, aux, numbers, table, least, latest, line, answer,
    );
    let after = f.latest;
    Told {
        written: f.written,
        latest: after,
        given,
    }
}
