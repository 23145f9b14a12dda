// Fills rows of the frozen circuits after each of their lowerings, and evaluates on them. Says what was tried, and how much isn't as it has to be.
#![tactic(auto)]

mod calls;
mod text;
mod trial;
mod words;

use crate::calls::{LISTED, WORDS, record};
use crate::words::{BEFORE, CIRCUITS, CONSTRAINTS, DIFFER, LOWERINGS, ROOTS, ROWS, TALLY, get};
use inputs::{argument, opened, read_full};
use std::fs::Files;
use std::io;

// The longest file.
const FILE: usize = 65536;

// The longest name of a file.
const NAME: usize = 4096;

// The records of all lines; what stands behind the last line feed is none.
fn lines(t: &mut [u64], m: &mut [u64], roots: &mut [u64], s: &[u8]) {
    for line in s.split_inclusive(|&c| c == b'\n') {
        if let Some(line) = line.strip_suffix(b"\n") {
            record(t, m, roots, line);
        }
    }
}

fn say(rt: &impl Print, n: u64, what: &str) -> io::Result<()> {
    print!(rt; "{n}{what}")
}

fn report(rt: &impl Print, t: &[u64]) -> io::Result<()> {
    say(rt, get(t, CIRCUITS), " circuits, ")?;
    say(rt, get(t, LOWERINGS), " lowerings, ")?;
    say(rt, get(t, ROWS), " rows, ")?;
    say(rt, get(t, CONSTRAINTS), " constraints (zero before: ")?;
    say(rt, get(t, BEFORE), "), ")?;
    say(rt, get(t, ROOTS), " roots; ")?;
    say(rt, get(t, DIFFER), " differ\n")
}

fn run(rt: &impl Print, s: &[u8]) -> io::Result<()> {
    let mut t = [0u64; TALLY];
    let mut m = [0u64; WORDS];
    let mut roots = [0u64; LISTED];
    lines(&mut t, &mut m, &mut roots, s);
    report(rt, &t)
}

// A file that isn't there has no lines.
fn file<R: Files + Print>(rt: &R, name: &[u8]) -> io::Result<()> {
    let mut s = [0u8; FILE];
    let n = match opened(rt, name) {
        Some(mut file) => read_full(&mut file, &mut s)?,
        None => 0,
    };
    run(rt, &s[..n])
}

// The file that the argument names, or the one of this folder.
fn main(rt: HostRuntime) -> io::Result<()> {
    let mut name = [0u8; NAME];
    let n = argument(&rt, 1, &mut name);
    if n == 0 {
        return file(&rt, b"circuits.txt");
    }
    file(&rt, &name[..n])
}
