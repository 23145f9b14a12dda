// A line is one record; its first character says which.
use crate::cells::cell;
use crate::nodes::node;
use crate::tally::{CALLED, DIFFER, LINE, STAGE, WRONG, add, compare_totals, get, put, turn};
use crate::text::byte_at;
use crate::{calls, dumps};
use std::io;

// A record of a dump that is no node.
fn of_dump(t: &mut [u64], m: &mut [u64], roots: &[u64], list: &mut [u64], line: &[u8]) {
    match byte_at(line, 0) {
        b'd' => dumps::head(t, m, roots, line),
        b'r' => dumps::roots_of(t, m, roots, line),
        b'g' => dumps::highest_of(t, m, roots, line),
        b'v' => dumps::visible_of(t, m, roots, line),
        b'w' | b'x' => dumps::walked(t, m, roots, list, line),
        b'k' => dumps::counted(t, m, roots, line),
        b'q' => dumps::pairs(t, m, line),
        b'u' => dumps::distinct(t, m, roots, line),
        b'e' => dumps::end(t, roots),
        _ => put(t, WRONG, 1),
    }
}

// A file's last record: no call waits for its answer, and no dump for its end.
fn last(t: &mut [u64], line: &[u8]) {
    turn(t, CALLED, 0, 0);
    turn(t, STAGE, 0, 0);
    compare_totals(t, line);
}

// Any record.
fn replayed(
    t: &mut [u64],
    m: &mut [u64],
    roots: &mut [u64],
    answer: &mut [u8],
    tables: &mut [u64],
    list: &mut [u64],
    line: &[u8],
) {
    match byte_at(line, 0) {
        b'#' => {}
        b'c' => calls::begin(t, m, roots, tables),
        b'>' => calls::call(t, m, roots, answer, line),
        b's' => calls::summed(t, m, line),
        b'<' => calls::answered(t, answer, line),
        b't' => cell(t, tables, line),
        b'n' => node(t, m, tables, line),
        b'.' => last(t, line),
        _ => of_dump(t, m, roots, list, line),
    }
}

// Counts and names a record that differs.
fn judge(rt: &impl Print, t: &mut [u64]) -> io::Result<()> {
    if get(t, WRONG) != 0 {
        put(t, WRONG, 0);
        add(t, DIFFER, 1);
        let line = get(t, LINE);
        println!(rt; "differs: line {line}")?;
    }
    Ok(())
}

pub(crate) fn record(
    rt: &impl Print,
    t: &mut [u64],
    m: &mut [u64],
    roots: &mut [u64],
    answer: &mut [u8],
    tables: &mut [u64],
    list: &mut [u64],
    line: &[u8],
) -> io::Result<()> {
    add(t, LINE, 1);
    replayed(t, m, roots, answer, tables, list, line);
    judge(rt, t)
}
