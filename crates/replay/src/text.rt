// A line's characters and numbers. Nothing stands beyond its end: a character there is 0, and so is a digit.
ghost use Rattle.std.specs.Prelude.{◌≡◌, ◌≤◌, drop, slice_index};
ghost use Rattle.framing.specs.Digits.{bytes_of, number_at};

use arithmetic::Triple;
use frame::digits;

// Character i of a line.
pub(crate) fn byte_at(s: &[u8], i: usize) -> u8
    ensures { result ≡ slice_index s.now i }
{
    if i < s.len() {
        return s[i];
    }
    0
}

// The same as a number.
pub(crate) fn code_at(s: &[u8], i: usize) -> u64
    ensures { result ≡ slice_index s.now i }
{
    let c = byte_at(s, i);
    c as u64
}

// What follows the first n characters.
pub(crate) fn after(s: &[u8], n: usize) -> &[u8]
    ensures { result.now ≡ drop n s.now }
{
    if n <= s.len() {
        return &s[n..];
    }
    &s[..0]
}

// The first n characters; none where there are fewer.
pub(crate) fn before(s: &[u8], n: usize) -> &[u8] {
    if n <= s.len() {
        return &s[0..n];
    }
    &s[..0]
}

// The number of so many bytes, two digits each, that begin at `at`.
pub(crate) fn number(s: &[u8], at: usize, size: usize) -> u64
    requires { size ≤ 8 }
    ensures { result ≡ number_at size 0 (bytes_of (drop at s.now)) }
{
    digits::number(after(s, at), size, 0)
}

// The three words from `at` on.
pub(crate) fn triple(s: &[u8], at: usize) -> Triple {
    let rest = after(s, at);
    Triple {
        c0: number(rest, 0, 8),
        c1: number(rest, 16, 8),
        c2: number(rest, 32, 8),
    }
}
