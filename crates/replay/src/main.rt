// Replays the answers of the Rust, which were frozen into files: each call again, and each reading of each dump, all compared. Says for each file
// what was replayed, how many numbers were compared, and in how many records one differs.
#![tactic(auto)]

mod calls;
mod cells;
mod dumps;
mod lines;
mod nodes;
mod records;
mod tally;
mod text;

use crate::cells::TABLES;
use crate::lines::replay;
use crate::tally::{
    CIRCUITS, COMPARED, DIFFER, DUMPS, ENDED, FRAMES, LOWERINGS, NODES, SUBSTITUTIONS, SUMS, TALLY,
    add, add_all, get,
};
use inputs::{argument, opened};
use std::fs::Files;
use std::io;

// The words of a circuit of 512 places.
const WORDS: usize = 3074;

// The longest walk of the files fits.
const LIST: usize = 393216;

// How much of a file is held at a time.
const PART: usize = 65536;

// The longest name of a file.
const NAME: usize = 4096;

fn say(rt: &impl Print, n: u64, what: &str) -> io::Result<()> {
    print!(rt; "{n}{what}")
}

fn report(rt: &impl Print, name: &[u8], t: &[u64]) -> io::Result<()> {
    rt.write_all(name)?;
    print!(rt; ": ")?;
    say(rt, get(t, CIRCUITS), " circuits, ")?;
    say(rt, get(t, FRAMES), " frames, ")?;
    say(rt, get(t, SUMS), " sums, ")?;
    say(rt, get(t, LOWERINGS), " lowerings, ")?;
    say(rt, get(t, SUBSTITUTIONS), " substitutions, ")?;
    say(rt, get(t, DUMPS), " dumps, ")?;
    say(rt, get(t, NODES), " nodes; ")?;
    say(rt, get(t, COMPARED), " numbers compared, ")?;
    say(rt, get(t, DIFFER), " differ\n")
}

// A file that isn't there, or has no last record, differs.
fn finish(t: &mut [u64]) {
    if get(t, ENDED) == 0 {
        add(t, DIFFER, 1);
    }
}

// Replays a file and adds its counts to the totals.
fn file<R: Files + Print>(rt: &R, name: &[u8], totals: &mut [u64]) -> io::Result<()> {
    let mut part = [0u8; PART];
    let mut t = [0u64; TALLY];
    let mut m = [0u64; WORDS];
    let mut roots = [0u64; 65];
    let mut answer = [0u8; 4107];
    let mut tables = [0u64; TABLES];
    let mut list = [0u64; LIST];
    if let Some(mut file) = opened(rt, name) {
        replay(
            rt,
            &mut file,
            &mut part,
            &mut t,
            &mut m,
            &mut roots,
            &mut answer,
            &mut tables,
            &mut list,
        )?;
    }
    finish(&mut t);
    report(rt, name, &t)?;
    add_all(totals, &t);
    Ok(())
}

fn all<R: Files + Print>(rt: &R) -> io::Result<()> {
    let mut totals = [0u64; TALLY];
    file(rt, b"examples.txt", &mut totals)?;
    file(rt, b"building.txt", &mut totals)?;
    file(rt, b"single.txt", &mut totals)?;
    file(rt, b"dual.txt", &mut totals)?;
    file(rt, b"again.txt", &mut totals)?;
    file(rt, b"large.txt", &mut totals)?;
    file(rt, b"towers.txt", &mut totals)?;
    report(rt, b"all", &totals)
}

// The file that the argument names, or all of them.
fn main(rt: HostRuntime) -> io::Result<()> {
    let mut name = [0u8; NAME];
    let n = argument(&rt, 1, &mut name);
    if n == 0 {
        return all(&rt);
    }
    let mut totals = [0u64; TALLY];
    file(&rt, &name[..n], &mut totals)
}
