// A line's characters and numbers. Nothing stands beyond its end: a character there is 0, and so is a digit.
ghost use Rattle.std.specs.Prelude.{◌≤◌};

use frame::digits;

// Character i of a line.
pub(crate) fn byte_at(s: &[u8], i: usize) -> u8 {
    if i < s.len() {
        return s[i];
    }
    0
}

// What follows the first n characters.
pub(crate) fn after(s: &[u8], n: usize) -> &[u8] {
    if n <= s.len() {
        return &s[n..];
    }
    &s[..0]
}

// The number of so many bytes, two digits each, that begin at `at`.
pub(crate) fn number(s: &[u8], at: usize, size: usize) -> u64
    requires { size ≤ 8 }
{
    digits::number(after(s, at), size, 0)
}
