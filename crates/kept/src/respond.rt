// What a request does, and what it is answered, with tables that are kept.
ghost use Rattle.std.specs.Prelude.{◌≡◌, List, ℕ};
ghost use Rattle.build.specs.Inner.{Buildable};
ghost use Rattle.framing.specs.States.{lent};
ghost use Rattle.framing.specs.Answers.{told, start_answer, input_answer, lower_answer, answered, replied};
ghost use Rattle.kept.specs.Keeps.{Keeps, Renewable, Startable, Timely};

use crate::nodes::{base, challenge, extension, input, on_nodes};
use build::several::class_anew;
use build_calls::calls;
use frame::respond::{id_of, in_time, kind_of, lower_frame, root_frame, start_frame};
use framing::{Reply, Request};
use layout::node::Position;
use layout::refusal::Refusal;

// The tables of what a start or a lowering left.
fn renew(m: &[u64], numbers: &mut [u64], table: &mut [u64], least: &mut [u64])
    requires { Renewable m.now numbers.old table.old least.old }
    ensures { Keeps m.now numbers.new table.new least.new }
{
    if kind_of(m) == 0 {
        return;
    }
    class_anew(m, numbers, table, least);
}

fn start(
    m: &mut [u64],
    roots: &mut [u64],
    numbers: &mut [u64],
    table: &mut [u64],
    least: &mut [u64],
    kind: u64,
) -> Reply
    requires { Startable m.old numbers.old table.old least.old }
    ensures { ((main aux : List ℕ) → told result m.new roots.new main aux ≡ start_answer (lent m.old roots.old main aux) kind) × Keeps m.new numbers.new table.new least.new }
{
    let reply = start_frame(m, roots, kind);
    renew(m, numbers, table, least);
    reply
}

fn lower(
    m: &mut [u64],
    roots: &mut [u64],
    main: &mut [u64],
    aux: &mut [u64],
    numbers: &mut [u64],
    table: &mut [u64],
    least: &mut [u64],
    target: u64,
    main_count: u64,
    aux_count: u64,
) -> Reply
    requires { Buildable m.old numbers.old table.old least.old }
    ensures { (told result m.new roots.new main.new aux.new ≡ lower_answer (lent m.old roots.old main.old aux.old) target main_count aux_count) × Keeps m.new numbers.new table.new least.new }
{
    let reply = lower_frame(m, roots, main, aux, target, main_count, aux_count);
    renew(m, numbers, table, least);
    reply
}

// Row: 00 main, 01 auxiliary, 02 next main, 03 next auxiliary.
fn input_frame(
    m: &mut [u64],
    numbers: &mut [u64],
    table: &mut [u64],
    least: &mut [u64],
    row: u64,
    c: u64,
) -> Reply
    requires { Buildable m.old numbers.old table.old least.old }
    ensures { ((rs main aux : List ℕ) → told result m.new rs main aux ≡ input_answer (lent m.old rs main aux) row c) × Buildable m.new numbers.new table.new least.new }
{
    match row {
        0 => id_of(input(m, numbers, table, least, Position::Main(c))),
        1 => id_of(input(m, numbers, table, least, Position::Aux(c))),
        2 => id_of(input(m, numbers, table, least, Position::NextMain(c))),
        3 => id_of(input(m, numbers, table, least, Position::NextAux(c))),
        _ => Reply::Bare(Refusal::Frame as u64),
    }
}

// A request that comes in time.
fn answer_to(
    m: &mut [u64],
    roots: &mut [u64],
    main: &mut [u64],
    aux: &mut [u64],
    numbers: &mut [u64],
    table: &mut [u64],
    least: &mut [u64],
    request: Request,
) -> Reply
    requires { Timely m.old roots.old main.old aux.old numbers.old table.old least.old request }
    ensures { (told result m.new roots.new main.new aux.new ≡ answered (lent m.old roots.old main.old aux.old) request) × Keeps m.new numbers.new table.new least.new }
{
    match request {
        Request::Start(kind) => start(m, roots, numbers, table, least, kind),
        Request::Input(row, c) => input_frame(m, numbers, table, least, row, c),
        Request::Challenge(k) => id_of(challenge(m, numbers, table, least, k)),
        Request::Base(w) => id_of(base(m, numbers, table, least, w)),
        Request::Extension(x) => id_of(extension(m, numbers, table, least, x)),
        Request::Operation(o, l, r) => {
            let asked = calls::Request::Operation(o, l, r);
            id_of(on_nodes(m, numbers, table, least, l, r, asked))
        }
        Request::Subtract(a, b) => {
            let asked = calls::Request::Subtract(a, b);
            id_of(on_nodes(m, numbers, table, least, a, b, asked))
        }
        Request::Negate(a) => {
            let asked = calls::Request::Negate(a);
            id_of(on_nodes(m, numbers, table, least, a, a, asked))
        }
        Request::Root(i) => root_frame(m, roots, i),
        Request::Lower(t, a, b) => lower(m, roots, main, aux, numbers, table, least, t, a, b),
        Request::Nothing => Reply::Bare(Refusal::Frame as u64),
    }
}

pub fn respond(
    m: &mut [u64],
    roots: &mut [u64],
    main: &mut [u64],
    aux: &mut [u64],
    numbers: &mut [u64],
    table: &mut [u64],
    least: &mut [u64],
    request: Request,
) -> Reply
    requires { Keeps m.old numbers.old table.old least.old }
    ensures { (told result m.new roots.new main.new aux.new ≡ replied (lent m.old roots.old main.old aux.old) request) × Keeps m.new numbers.new table.new least.new }
{
    if !in_time(m, request) {
        return Reply::Bare(Refusal::Frame as u64);
    }
    answer_to(m, roots, main, aux, numbers, table, least, request)
}
