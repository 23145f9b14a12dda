// Lower-case hexadecimal: digits of a line as bytes and numbers, and values as digits.
ghost use Rattle.std.specs.Prelude.{◌≡◌, ◌+◌, ◌*◌, ◌<◌, ◌≤◌, length, get_or};
ghost use Rattle.layout.specs.Lists.{all};
ghost use Rattle.framing.specs.Digits.{is_digit, digit, bytes_of, number_at, character};

fn is_digit(c: u8) -> bool
    ensures { result ≡ is_digit c }
{
    if c < b'0' {
        return false;
    }
    if c <= b'9' {
        return true;
    }
    if c < b'a' {
        return false;
    }
    c <= b'f'
}

// Whether a line has nothing else.
pub fn all_digits(line: &[u8]) -> bool
    ensures { result ≡ all is_digit line.now }
{
    line.iter().all(|&c| is_digit(c))
}

// A digit's value; of anything else, 0.
fn digit(c: u8) -> u64
    ensures { result ≡ digit c }
{
    if !is_digit(c) {
        return 0;
    }
    if c <= b'9' {
        return (c - b'0') as u64;
    }
    (c - 87) as u64
}

// A line's byte, two digits; 0 if it is missing.
fn byte_at(line: &[u8], i: usize) -> u64
    requires { i < 131072 }
    ensures { result ≡ get_or (bytes_of line.now) i 0 }
{
    let at = 2 * i;
    if line.len() <= at + 1 {
        return 0;
    }
    16 * digit(line[at]) + digit(line[at + 1])
}

// The number of so many bytes, after so many: big-endian.
pub fn number(line: &[u8], size: usize, after: usize) -> u64
    requires { (size ≤ 8) × (after ≤ 65536) }
    ensures { result ≡ number_at size after (bytes_of line.now) }
{
    let mut n: u64 = 0;
    for k in 0..size {
        n = 256 * n + byte_at(line, after + k);
    }
    n
}

// The digit of a value.
pub(crate) fn character(d: u64) -> u8
    requires { d < 16 }
    ensures { result ≡ character d }
{
    if d < 10 {
        return 48 + (d as u8);
    }
    87 + (d as u8)
}
