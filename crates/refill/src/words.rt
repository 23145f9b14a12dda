// Words that are lent, and what was counted so far, by its places among them.

// Circuits, accepted lowerings, filled rows; listed constraints evaluated, those of them that were zero before the rows were filled; roots compared;
// and what isn't as it has to be.
pub(crate) const CIRCUITS: usize = 0;

pub(crate) const LOWERINGS: usize = 1;

pub(crate) const ROWS: usize = 2;

pub(crate) const CONSTRAINTS: usize = 3;

pub(crate) const BEFORE: usize = 4;

pub(crate) const ROOTS: usize = 5;

pub(crate) const DIFFER: usize = 6;

// The last of the pseudo-random words.
pub(crate) const RANDOM: usize = 7;

pub(crate) const TALLY: usize = 8;

// Word i, 0 beyond the end.
pub(crate) fn get(s: &[u64], i: usize) -> u64 {
    if i < s.len() {
        return s[i];
    }
    0
}

// Sets word i; beyond the end nothing.
pub(crate) fn put(s: &mut [u64], i: usize, v: u64) {
    if i < s.len() {
        s[i] = v;
    }
}

// The words from `from` to `end`; none where there are fewer.
pub(crate) fn part(s: &[u64], from: usize, end: usize) -> &[u64] {
    if from <= end {
        if end <= s.len() {
            return &s[from..end];
        }
    }
    &s[..0]
}

pub(crate) fn add(t: &mut [u64], i: usize, n: u64) {
    put(t, i, std::num::wrapping_add_u64(get(t, i), n));
}

// What has to hold.
pub(crate) fn must(t: &mut [u64], holds: bool) {
    if !holds {
        add(t, DIFFER, 1);
    }
}

// Copies words, as many as both have.
pub(crate) fn copy(to: &mut [u64], from: &[u64]) {
    for (place, &word) in to.iter_mut().zip(from) {
        *place = word;
    }
}
