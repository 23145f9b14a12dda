// A file, a part at a time, as lines.
ghost use Rattle.std.specs.Prelude.{◌+◌, ◌<◌, ◌≤◌, length, IfOk};

use crate::records::record;
use inputs::read_full;
use std::io;
use std::io::Read;

// Character i is looked at: where it ends a line, that is a record. Answers where the line begins that is read next.
fn step(
    rt: &impl Print,
    t: &mut [u64],
    m: &mut [u64],
    roots: &mut [u64],
    answer: &mut [u8],
    tables: &mut [u64],
    list: &mut [u64],
    s: &[u8],
    at: usize,
    i: usize,
) -> io::Result<usize>
    requires { (at ≤ i) × (i < length s.now) }
    ensures { IfOk result (λ next. next ≤ i + 1) }
{
    if s[i] == b'\n' {
        record(rt, t, m, roots, answer, tables, list, &s[at..i])?;
        return Ok(i + 1);
    }
    Ok(at)
}

// The records of the whole lines of the first `end` bytes: how many bytes these are.
fn lines(
    rt: &impl Print,
    t: &mut [u64],
    m: &mut [u64],
    roots: &mut [u64],
    answer: &mut [u8],
    tables: &mut [u64],
    list: &mut [u64],
    s: &[u8],
    end: usize,
) -> io::Result<usize>
    requires { end ≤ length s.now }
    ensures { IfOk result (λ at. at ≤ end) }
{
    let mut at: usize = 0;
    for i in 0..end {
        at = step(rt, t, m, roots, answer, tables, list, s, at, i)?;
    }
    Ok(at)
}

// Reads behind the bytes that are kept: how many there are then.
fn fill<R: Read>(file: &mut R, part: &mut [u8], kept: usize) -> io::Result<usize>
    requires { kept ≤ length part.old }
    ensures { IfOk result (λ end. (kept ≤ end) × (end ≤ length part.new)) }
{
    Ok(kept + read_full(file, &mut part[kept..])?)
}

// All lines of a file. A proved loop has to end, and nothing says that the file does.
pub(crate) fn replay<R: Read>(
    rt: &impl Print,
    file: &mut R,
    part: &mut [u8],
    t: &mut [u64],
    m: &mut [u64],
    roots: &mut [u64],
    answer: &mut [u8],
    tables: &mut [u64],
    list: &mut [u64],
) -> io::Result<()> {
    let mut kept: usize = 0;
    for _ in 0..100000 {
        let end = fill(file, part, kept)?;
        if end == kept {
            break;
        }
        let at = lines(rt, t, m, roots, answer, tables, list, part, end)?;
        part.copy_within(at..end, 0);
        kept = end - at;
    }
    Ok(())
}
