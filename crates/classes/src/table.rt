// A table of keys of four words, found or added in a few steps: the keys of a bucket are a chain whose numbers fall.
ghost use Rattle.std.specs.Prelude.{◌≡◌, ◌+◌, ◌≤◌, length};
ghost use Rattle.layout.specs.Lists.{same_words};
ghost use Rattle.classes.specs.Table.{place, entry, listed, spread, Tabled, Sought, Roomy, Written, Interned};

use circuit::place::FourWords;

// The words of a table of 4,096 keys.
pub const TABLE: usize = 24574;

// The words before the keys: how many keys there are, and the last number of each bucket.
pub const HEADS: usize = 4094;

// The words of a key, its link included; numbers begin with 1, so there is no key at FIRST itself.
const KEY: usize = 5;

const FIRST: usize = 4089;

// A prime number: operands' numbers, which are dense, then spread over the buckets.
const BUCKETS: u64 = 4093;

// The lower half of a word is enough of it, and a power of two is quick to divide by.
const HALF: u64 = 4294967296;

// The bucket of a key.
fn bucket(w: FourWords) -> u64
    ensures { result ≡ spread (listed w) }
{
    (w.kind % 16 + 1021 * (w.first % HALF) + 2801 * (w.second % HALF) + 3571 * (w.third % HALF))
        % BUCKETS
}

// Whether two expressions, or two keys, have the same words.
pub fn same_words(v: FourWords, w: FourWords) -> bool
    ensures { result ≡ same_words (listed v) (listed w) }
{
    v == w
}

// Whether w is the key of number v.
fn is_key(table: &[u64], v: u64, w: FourWords) -> bool
    requires { place v + 5 ≤ length table.now }
    ensures { result ≡ same_words (entry table.now v) (listed w) }
{
    let at = FIRST + KEY * (v as usize);
    table[at] == w.kind
        && table[at + 1] == w.first
        && table[at + 2] == w.second
        && table[at + 3] == w.third
}

// The number of a key, if it has one.
pub(crate) fn seek(table: &[u64], w: FourWords) -> Option<u64>
    requires { Tabled table.now }
    ensures { Sought table.now (listed w) result }
{
    let h = 1 + bucket(w) as usize;
    let mut v = table[h];
    while v != 0 {
        if is_key(table, v, w) {
            return Some(v);
        }
        let at = FIRST + KEY * (v as usize);
        v = table[at + 4];
    }
    None
}

// The words of key v, and the number before it in its bucket.
fn write_key(table: &mut [u64], v: u64, w: FourWords, before: u64)
    requires { place v + 5 ≤ length table.old }
    ensures { Written table.old table.new (listed w) v before }
{
    let at = FIRST + KEY * (v as usize);
    table[at] = w.kind;
    table[at + 1] = w.first;
    table[at + 2] = w.second;
    table[at + 3] = w.third;
    table[at + 4] = before;
}

// The number of a key, which is added where it has none.
pub(crate) fn intern(table: &mut [u64], w: FourWords) -> u64
    requires { Roomy table.old }
    ensures { Interned table.old table.new (listed w) result }
{
    if let Some(v) = seek(table, w) {
        return v;
    }
    let h = 1 + bucket(w) as usize;
    let v = table[0] + 1;
    let before = table[h];
    write_key(table, v, w, before);
    table[0] = v;
    table[h] = v;
    v
}
