// Compares the two fields with answers that were worked out elsewhere: records from standard input, one a line, as
// bench/field/vectors.py writes them. Prints how many were compared and how many disagree.
#![tactic(auto)]

ghost use Rattle.std.specs.Prelude.{◌+◌, ◌<◌, ◌≤◌, length};

use arithmetic::Triple;
use field::{base, extension};
use inputs::read_full;
use std::io;

// A record: one character, nine words of 16 digits, and the line feed.
const RECORD: usize = 146;

// A hundred records.
const PART: usize = 14600;

#[derive(Clone, Copy)]
struct Tally {
    compared: u32,
    disagree: u32,
}

// The value of a lower-case hexadecimal digit.
fn digit(c: u8) -> u64
    ensures { result < 16 }
{
    match c {
        b'0'..=b'9' => (c - b'0') as u64,
        b'a'..=b'f' => (c - b'a') as u64 + 10,
        _ => 0,
    }
}

// The word in the 16 digits from `at` on.
fn word(s: &[u8], at: usize) -> u64
    requires { at + 16 ≤ length s.now }
{
    let mut w = 0;
    for i in at..at + 16 {
        w = (w % 0x1000_0000_0000_0000) * 16 + digit(s[i]);
    }
    w
}

fn triple(s: &[u8], at: usize) -> Triple
    requires { at + 48 ≤ length s.now }
{
    Triple {
        c0: word(s, at),
        c1: word(s, at + 16),
        c2: word(s, at + 32),
    }
}

fn in_base(op: u8, a: u64, b: u64) -> u64 {
    match op {
        b'+' => base::add(a, b),
        b'-' => base::subtract(a, b),
        b'*' => base::multiply(a, b),
        _ => base::negate(a),
    }
}

fn by_place(op: u8, x: Triple, y: Triple) -> Triple {
    Triple {
        c0: in_base(op, x.c0, y.c0),
        c1: in_base(op, x.c1, y.c1),
        c2: in_base(op, x.c2, y.c2),
    }
}

fn bit(b: bool) -> u64
    ensures { result ≤ 1 }
{
    u64::from(b)
}

fn tests(x: Triple, y: Triple) -> Triple {
    let flags = bit(extension::is_canonical(x))
        + 2 * bit(extension::unlifts(x))
        + 4 * bit(extension::equal(x, y));
    let lifted = extension::lift(x.c0);
    Triple {
        c0: flags,
        c1: extension::unlift(x).unwrap_or(0),
        c2: lifted.c0,
    }
}

fn in_extension(op: u8, x: Triple, y: Triple) -> Triple {
    match op {
        b'+' => extension::add(x, y),
        b'-' => extension::subtract(x, y),
        b'*' => by_place(op, x, y),
        b'n' => extension::negate(x),
        b'x' => extension::multiply(x, y),
        _ => tests(x, y),
    }
}

// What is made place by place is made in both fields, and must be the same in both.
fn agrees(op: u8, x: Triple, y: Triple, r: Triple) -> bool {
    let placed = if op == b'x' || op == b't' {
        r
    } else {
        by_place(op, x, y)
    };
    extension::equal(in_extension(op, x, y), r) & extension::equal(placed, r)
}

// The whole records of a part of the input, added to the tally.
fn compare(s: &[u8], before: Tally) -> Tally {
    let mut tally = before;
    for record in s.chunks_exact(RECORD) {
        let x = triple(record, 1);
        let y = triple(record, 49);
        let r = triple(record, 97);
        let right = agrees(record[0], x, y, r);
        tally.compared = std::num::wrapping_add_u32(tally.compared, 1);
        if !right {
            tally.disagree = std::num::wrapping_add_u32(tally.disagree, 1);
        }
    }
    tally
}

fn main(rt: HostRuntime) -> io::Result<()> {
    let mut tally = Tally {
        compared: 0,
        disagree: 0,
    };
    let mut input = rt.stdin();
    let mut part = [0u8; PART];
    // A proved loop has to end, and nothing says that the input does.
    for _ in 0..1000 {
        let n = read_full(&mut input, &mut part)?;
        tally = compare(&part[..n], tally);
        if n < PART {
            break;
        }
    }
    let Tally { compared, disagree } = tally;
    println!(rt; "{compared} compared, {disagree} disagree")
}
