// What a line asks for: the opcode byte decides the length and meaning of the rest.
ghost use Rattle.std.specs.Prelude.{◌≡◌, ◌≤◌};
ghost use Rattle.framing.specs.Digits.{bytes_of};
ghost use Rattle.framing.specs.Requests.{triple_at, form_of, request_of};

use crate::digits::{all_digits, number};
use arithmetic::Triple;
use framing::{Form, Request};
use layout::node::Op;

fn triple_at(line: &[u8]) -> Triple
    ensures { result ≡ triple_at (bytes_of line.now) }
{
    Triple {
        c0: number(line, 8, 1),
        c1: number(line, 8, 9),
        c2: number(line, 8, 17),
    }
}

// The opcode number picks the frame's reader and its length.
fn form_of(line: &[u8]) -> Form
    ensures { (result ≡ form_of (bytes_of line.now)) × (result.0 ≤ 25) }
{
    let opcode = number(line, 1, 0);
    match opcode {
        0 => Form(2, Request::Start(number(line, 1, 1))),
        1 => Form(4, Request::Input(number(line, 1, 1), number(line, 2, 2))),
        2 => Form(3, Request::Challenge(number(line, 2, 1))),
        3 => Form(9, Request::Base(number(line, 8, 1))),
        4 => Form(25, Request::Extension(triple_at(line))),
        5 => Form(
            5,
            Request::Operation(Op::Add, number(line, 2, 1), number(line, 2, 3)),
        ),
        6 => Form(
            5,
            Request::Operation(Op::Multiply, number(line, 2, 1), number(line, 2, 3)),
        ),
        7 => Form(5, Request::Subtract(number(line, 2, 1), number(line, 2, 3))),
        8 => Form(3, Request::Negate(number(line, 2, 1))),
        9 => Form(3, Request::Root(number(line, 2, 1))),
        10 => Form(
            7,
            Request::Lower(number(line, 2, 1), number(line, 2, 3), number(line, 2, 5)),
        ),
        _ => Form(0, Request::Nothing),
    }
}

// What a line asks for: it has to be digits, two for each byte of its form.
pub fn read(line: &[u8]) -> Request
    ensures { result ≡ request_of line.now }
{
    if !all_digits(line) {
        return Request::Nothing;
    }
    let f = form_of(line);
    if line.len() != 2 * f.0 {
        return Request::Nothing;
    }
    f.1
}
