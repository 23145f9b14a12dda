// What was counted so far, in lent words, by these places.
ghost use Rattle.std.specs.Prelude.{◌≤◌};

use crate::text::number;
use layout::refusal::Refusal;

// As in a file's last record: circuits, frames, sums, lowerings, substitutions, dumps, nodes.
pub(crate) const CIRCUITS: usize = 0;

pub(crate) const FRAMES: usize = 1;

pub(crate) const SUMS: usize = 2;

pub(crate) const LOWERINGS: usize = 3;

pub(crate) const SUBSTITUTIONS: usize = 4;

pub(crate) const DUMPS: usize = 5;

pub(crate) const NODES: usize = 6;

// The numbers compared, and the records of which one was another.
pub(crate) const COMPARED: usize = 7;

pub(crate) const DIFFER: usize = 8;

// How many of the above there are, to be added over files.
pub(crate) const SUMMED: usize = 9;

// 1 where the record at hand differs.
pub(crate) const WRONG: usize = 9;

// The line at hand, from 1.
pub(crate) const LINE: usize = 10;

// From a call to its answer, which kind of call.
pub(crate) const CALLED: usize = 11;

// 1 or 2.
pub(crate) const ROWS: usize = 12;

// Of the dump at hand: the nodes so far, those of them that are registered, and those that are the least of their structure; the number of nodes
// that shall be registered; whether nodes have values; and the walks or lists of counts so far.
pub(crate) const NODE: usize = 13;

pub(crate) const REGISTERED: usize = 14;

pub(crate) const LEAST: usize = 15;

pub(crate) const SAID: usize = 16;

pub(crate) const VALUED: usize = 17;

pub(crate) const PLACE: usize = 18;

// Where in a dump the records are: 0 outside, 1 at its nodes, 2 after the roots, 3 after their degree, 4 at their walks, 5 at their reference counts.
pub(crate) const STAGE: usize = 19;

// One more than the last id whose reference count came.
pub(crate) const COUNTED: usize = 20;

// 1 once the last record has come.
pub(crate) const ENDED: usize = 21;

// How long the answer to a frame is; the number and the id of the answer to a sum.
pub(crate) const ANSWER: usize = 22;

pub(crate) const NUMBER: usize = 23;

pub(crate) const ID: usize = 24;

// From here on, of the dump at hand, each node's class.
pub(crate) const CLASSES: usize = 25;

// Room for the classes of 512 nodes.
pub(crate) const TALLY: usize = 537;

// Word i, 0 beyond the end.
pub(crate) fn get(s: &[u64], i: usize) -> u64 {
    if i < s.len() {
        return s[i];
    }
    0
}

// Sets word i; beyond the end nothing.
pub(crate) fn put(s: &mut [u64], i: usize, v: u64) {
    if i < s.len() {
        s[i] = v;
    }
}

// The words from `from` to `end`; none where there are fewer.
pub(crate) fn part(s: &[u64], from: usize, end: usize) -> &[u64] {
    if from <= end {
        if end <= s.len() {
            return &s[from..end];
        }
    }
    &s[..0]
}

pub(crate) fn add(t: &mut [u64], i: usize, n: u64) {
    put(t, i, std::num::wrapping_add_u64(get(t, i), n));
}

// One number compared: what the project says, and what the vectors say.
pub(crate) fn compare(t: &mut [u64], got: u64, want: u64) {
    add(t, COMPARED, 1);
    if got != want {
        put(t, WRONG, 1);
    }
}

// A number that a call answers, and may not refuse.
pub(crate) fn compare_count(t: &mut [u64], got: Result<u64, Refusal>, want: u64) {
    match got {
        Ok(n) => compare(t, n, want),
        Err(_) => put(t, WRONG, 1),
    }
}

// Yes is 1 and no 0.
pub(crate) fn flag(yes: bool) -> u64 {
    u64::from(yes)
}

// What has to hold of the records themselves.
pub(crate) fn must(t: &mut [u64], holds: bool) {
    if !holds {
        put(t, WRONG, 1);
    }
}

// A count that has to be one number, and is then another.
pub(crate) fn turn(t: &mut [u64], i: usize, from: u64, to: u64) {
    let was = get(t, i);
    must(t, was == from);
    put(t, i, to);
}

// Compares words with the numbers of so many bytes that are all of a text.
pub(crate) fn compare_list(t: &mut [u64], words: &[u64], text: &[u8], size: usize)
    requires { size ≤ 8 }
{
    let width = 2 * size;
    for (k, &word) in words.iter().enumerate() {
        compare(t, word, number(text, k * width, size));
    }
    compare(t, (words.len() * width) as u64, text.len() as u64);
}

// A file's last record.
pub(crate) fn compare_totals(t: &mut [u64], line: &[u8]) {
    for k in 0..COMPARED {
        let counted = get(t, k);
        compare(t, counted, number(line, 1 + 8 * k, 4));
    }
    turn(t, ENDED, 0, 1);
}

// Adds one file's counts to the totals of all.
pub(crate) fn add_all(totals: &mut [u64], t: &[u64]) {
    for k in 0..SUMMED {
        add(totals, k, get(t, k));
    }
}
