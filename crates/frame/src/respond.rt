// What a request does, and what it is answered.
ghost use Rattle.std.specs.Prelude.{◌≡◌, List, ℕ};
ghost use Rattle.layout.specs.Words.{row_kind, used};
ghost use Rattle.framing.specs.States.{lent};
ghost use Rattle.framing.specs.Answers.{told, is_start, in_time, start_as, start_answer, input_answer, root_answer, answered, replied, lower_answer, id_reply, counts_reply};

use crate::roots;
use build_calls::calls::{
    base_constant, challenge, extension_constant, input, negate, operation, subtract,
};
use circuit::refusal::number_of;
use framing::{Reply, Request};
use layout::node::{Position, RowKind};
use layout::refusal::Refusal;
use lower::calls::lower;

// The row kind: 0 until a 00 is accepted.
pub fn kind_of(m: &[u64]) -> u64
    ensures { result ≡ row_kind m.now }
{
    if m.len() == 0 {
        return 0;
    }
    m[0]
}

pub(crate) fn used_of(m: &[u64]) -> u64
    ensures { result ≡ used m.now }
{
    if m.len() < 2 {
        return 0;
    }
    m[1]
}

fn is_start(request: Request) -> bool
    ensures { result ≡ is_start request }
{
    match request {
        Request::Start(_) => true,
        Request::Input(_, _) => false,
        Request::Challenge(_) => false,
        Request::Base(_) => false,
        Request::Extension(_) => false,
        Request::Operation(_, _, _) => false,
        Request::Subtract(_, _) => false,
        Request::Negate(_) => false,
        Request::Root(_) => false,
        Request::Lower(_, _, _) => false,
        Request::Nothing => false,
    }
}

// 00 is accepted once, all others are FRAME until then.
pub fn in_time(m: &[u64], request: Request) -> bool
    ensures { (rs main aux : List ℕ) → result ≡ in_time (lent m.now rs main aux) request }
{
    if kind_of(m) == 0 {
        return is_start(request);
    }
    !is_start(request)
}

// An id's answer: the number, and the id if that is 0.
pub fn id_of(answer: Result<u64, Refusal>) -> Reply
    ensures { result ≡ id_reply answer }
{
    match answer {
        Ok(i) => Reply::Id(0, i),
        Err(r) => Reply::Id(number_of(r), 0),
    }
}

// A circuit of this row kind, and no roots.
fn start(m: &mut [u64], roots: &mut [u64], kind: RowKind) -> Reply
    ensures { (main aux : List ℕ) → told result m.new roots.new main aux ≡ start_as (lent m.old roots.old main aux) kind }
{
    let started = circuit::calls::start(m, kind);
    match started {
        Ok(()) => {
            roots::clear(roots);
            Reply::Bare(0)
        }
        Err(r) => Reply::Bare(number_of(r)),
    }
}

// Kind: 01 single, 02 dual.
pub fn start_frame(m: &mut [u64], roots: &mut [u64], kind: u64) -> Reply
    ensures { (main aux : List ℕ) → told result m.new roots.new main aux ≡ start_answer (lent m.old roots.old main aux) kind }
{
    match kind {
        1 => start(m, roots, RowKind::Single),
        2 => start(m, roots, RowKind::Dual),
        _ => Reply::Bare(Refusal::Frame as u64),
    }
}

// Row: 00 main, 01 auxiliary, 02 next main, 03 next auxiliary.
fn input_frame(m: &mut [u64], row: u64, c: u64) -> Reply
    ensures { (rs main aux : List ℕ) → told result m.new rs main aux ≡ input_answer (lent m.old rs main aux) row c }
{
    match row {
        0 => id_of(input(m, Position::Main(c))),
        1 => id_of(input(m, Position::Aux(c))),
        2 => id_of(input(m, Position::NextMain(c))),
        3 => id_of(input(m, Position::NextAux(c))),
        _ => Reply::Bare(Refusal::Frame as u64),
    }
}

// 64 roots, a 65th is NO_ROOM.
pub fn root_frame(m: &[u64], roots: &mut [u64], i: u64) -> Reply
    ensures { (main aux : List ℕ) → told result m.now roots.new main aux ≡ root_answer (lent m.now roots.old main aux) i }
{
    if used_of(m) <= i {
        return Reply::Bare(Refusal::BadId as u64);
    }
    if roots::count_of(roots) == roots::room_of(roots) {
        return Reply::Bare(Refusal::NoRoom as u64);
    }
    roots::add(roots, i);
    Reply::Bare(0)
}

fn counts_of(lowered: Result<(u64, u64), Refusal>) -> Reply
    ensures { result ≡ counts_reply lowered }
{
    match lowered {
        Ok((a, b)) => Reply::Counts(0, a, b),
        Err(r) => Reply::Counts(number_of(r), 0, 0),
    }
}

// Lowers the roots where they stand. Without a word for their number there are none.
pub fn lower_frame(
    m: &mut [u64],
    roots: &mut [u64],
    main: &mut [u64],
    aux: &mut [u64],
    target: u64,
    main_count: u64,
    aux_count: u64,
) -> Reply
    ensures { told result m.new roots.new main.new aux.new ≡ lower_answer (lent m.old roots.old main.old aux.old) target main_count aux_count }
{
    if roots.len() == 0 {
        return counts_of(lower(m, roots, target, main_count, aux_count, main, aux));
    }
    let end = 1 + roots::count_of(roots);
    counts_of(lower(
        m,
        &mut roots[1..end],
        target,
        main_count,
        aux_count,
        main,
        aux,
    ))
}

// A request that comes in time.
fn answer_to(
    m: &mut [u64],
    roots: &mut [u64],
    main: &mut [u64],
    aux: &mut [u64],
    request: Request,
) -> Reply
    ensures { told result m.new roots.new main.new aux.new ≡ answered (lent m.old roots.old main.old aux.old) request }
{
    match request {
        Request::Start(kind) => start_frame(m, roots, kind),
        Request::Input(row, c) => input_frame(m, row, c),
        Request::Challenge(k) => id_of(challenge(m, k)),
        Request::Base(w) => id_of(base_constant(m, w)),
        Request::Extension(x) => id_of(extension_constant(m, x)),
        Request::Operation(o, l, r) => id_of(operation(m, o, l, r)),
        Request::Subtract(a, b) => id_of(subtract(m, a, b)),
        Request::Negate(a) => id_of(negate(m, a)),
        Request::Root(i) => root_frame(m, roots, i),
        Request::Lower(t, a, b) => lower_frame(m, roots, main, aux, t, a, b),
        Request::Nothing => Reply::Bare(Refusal::Frame as u64),
    }
}

pub(crate) fn respond(
    m: &mut [u64],
    roots: &mut [u64],
    main: &mut [u64],
    aux: &mut [u64],
    request: Request,
) -> Reply
    ensures { told result m.new roots.new main.new aux.new ≡ replied (lent m.old roots.old main.old aux.old) request }
{
    if !in_time(m, request) {
        return Reply::Bare(Refusal::Frame as u64);
    }
    answer_to(m, roots, main, aux, request)
}
