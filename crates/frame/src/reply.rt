// What a line is answered, and the digits of that. Each of the functions that write answers the place behind what it wrote; characters for which
// there is no place are left out, and counted.
ghost use Rattle.std.specs.Prelude.{◌≡◌, List, [], ◌∷◌, ◌++◌, ◌+◌, ◌*◌, ◌^◌, ◌<◌, length, take};
ghost use Rattle.framing.specs.Digits.{hexadecimal, two, twos};
ghost use Rattle.framing.specs.Answers.{reply_bytes};
ghost use Rattle.frame.specs.Puts.{Put};

use crate::digits::character;
use framing::Reply;

const LINE_FEED: u8 = 10;

pub fn put(answer: &mut [u8], at: usize, c: u8) -> usize
    requires { at + 1 < 2 ^ 64 }
    ensures { Put answer.old at (c ∷ []) answer.new result }
{
    if answer.len() <= at {
        return at + 1;
    }
    answer[at] = c;
    at + 1
}

// A byte, two digits.
pub fn put_byte(answer: &mut [u8], at: usize, b: u64) -> usize
    requires { at + 2 < 2 ^ 64 }
    ensures { Put answer.old at (hexadecimal (b ∷ [])) answer.new result }
{
    let next = put(answer, at, character(b / 16 % 16));
    put(answer, next, character(b % 16))
}

// A number in two bytes.
pub fn put_two(answer: &mut [u8], at: usize, n: u64) -> usize
    requires { at + 4 < 2 ^ 64 }
    ensures { Put answer.old at (hexadecimal (two n)) answer.new result }
{
    let next = put_byte(answer, at, n / 256);
    put_byte(answer, next, n % 256)
}

// The first n of a list, as far as it has so many.
fn put_ids(answer: &mut [u8], at: usize, ids: &[u64], n: u64) -> usize
    requires { at + 4 * length ids.now < 2 ^ 64 }
    ensures { Put answer.old at (hexadecimal (twos (take n ids.now))) answer.new result }
{
    let listed = &ids[..ids.len().min(n as usize)];
    let mut next = at;
    for &i in listed {
        next = put_two(answer, next, i);
    }
    next
}

// Both counts and both lists.
fn put_lists(answer: &mut [u8], at: usize, main: &[u64], aux: &[u64], a: u64, b: u64) -> usize
    requires { at < 16 }
    ensures { Put answer.old at (hexadecimal (twos (a ∷ b ∷ (take a main.now ++ take b aux.now)))) answer.new result }
{
    let counted = put_two(answer, at, a);
    let both = put_two(answer, counted, b);
    let listed = put_ids(answer, both, main, a);
    put_ids(answer, listed, aux, b)
}

// The number, and after 00 what it is accepted with.
fn put_reply(answer: &mut [u8], reply: Reply, main: &[u64], aux: &[u64]) -> usize
    ensures { Put answer.old 0 (hexadecimal (reply_bytes reply main.now aux.now)) answer.new result }
{
    match reply {
        Reply::Bare(n) => put_byte(answer, 0, n),
        Reply::Id(n, i) => {
            let at = put_byte(answer, 0, n);
            if n == 0 {
                return put_two(answer, at, i);
            }
            at
        }
        Reply::Counts(n, a, b) => {
            let at = put_byte(answer, 0, n);
            if n == 0 {
                return put_lists(answer, at, main, aux, a, b);
            }
            at
        }
    }
}

// The whole line.
pub fn write(answer: &mut [u8], reply: Reply, main: &[u64], aux: &[u64]) -> usize
    ensures { Put answer.old 0 (hexadecimal (reply_bytes reply main.now aux.now) ++ (10 ∷ [])) answer.new result }
{
    let at = put_reply(answer, reply, main, aux);
    put(answer, at, LINE_FEED)
}
