// Document 01's edges that are run: 4,096 nodes fit and one more is FULL, columns and challenges up to 65,535, a target of 2, a column count that is
// just enough, and the bounds of degrees and of path counts. Says what each call answers: the id, the counts, the degree, or the number of the refusal.
// An answer that is let go is of a node whose id is known; were it refused, what is said afterwards would show it.
#![tactic(auto)]

use build_calls::calls::{base_constant, challenge, input, negate, operation, subtract, sum};
use circuit::calls::{free, read, start, used};
use circuit::refusal::number_of;
use layout::node::{Op, Position, RowKind};
use layout::refusal::Refusal;
use lower::calls::lower;
use paths::references::count_references;
use read::degree::degree;
use std::io;

// 4,096 places, and one more that no circuit uses.
const WORDS: usize = 24584;

fn say(rt: &impl Print, what: &str, n: u64) -> io::Result<()> {
    print!(rt; "{what}{n}")
}

fn say_answer(rt: &impl Print, what: &str, a: Result<u64, Refusal>) -> io::Result<()> {
    print!(rt; "{what}")?;
    match a {
        Ok(i) => say(rt, "id ", i)?,
        Err(r) => say(rt, "refused ", number_of(r))?,
    }
    println!(rt; "")
}

fn say_count(rt: &impl Print, what: &str, c: Result<u64, Refusal>) -> io::Result<()> {
    print!(rt; "{what}")?;
    match c {
        Ok(n) => say(rt, "", n)?,
        Err(r) => say(rt, "refused ", number_of(r))?,
    }
    println!(rt; "")
}

fn say_counts(rt: &impl Print, a: u64, b: u64) -> io::Result<()> {
    say(rt, "main ", a)?;
    say(rt, ", auxiliary ", b)
}

fn say_lowered(rt: &impl Print, what: &str, l: Result<(u64, u64), Refusal>) -> io::Result<()> {
    print!(rt; "{what}")?;
    match l {
        Ok((a, b)) => say_counts(rt, a, b)?,
        Err(r) => say(rt, "refused ", number_of(r))?,
    }
    println!(rt; "")
}

fn say_started(rt: &impl Print, s: Result<(), Refusal>) -> io::Result<()> {
    match s {
        Ok(()) => Ok(()),
        Err(r) => say(rt, "start refused ", number_of(r)),
    }
}

// The first columns, up to so many: each a node.
fn fill(m: &mut [u64], n: u64) {
    for k in 0..n {
        let _ = input(m, Position::Main(k));
    }
}

// In a circuit with room for one node more than 4,096: the last that fits, and what does not fit any more. What is found needs no room.
fn nodes(rt: &impl Print) -> io::Result<()> {
    let mut m = [0u64; WORDS];
    say_started(rt, start(&mut m, RowKind::Dual))?;
    fill(&mut m, 4094);
    say_answer(rt, "4,095th node: ", input(&mut m, Position::Main(4094)))?;
    say_answer(rt, "two more where one fits: ", negate(&mut m, 0))?;
    say_count(rt, "used: ", used(&m))?;
    say_answer(rt, "4,096th node: ", operation(&mut m, Op::Add, 0, 1))?;
    say_count(rt, "used: ", used(&m))?;
    say_count(rt, "free: ", free(&m))?;
    full(rt, &mut m)
}

fn full(rt: &impl Print, m: &mut [u64]) -> io::Result<()> {
    say_answer(
        rt,
        "4,097th node, an input: ",
        input(m, Position::Main(4095)),
    )?;
    say_answer(rt, "a constant: ", base_constant(m, 7))?;
    full_operations(rt, m)
}

fn full_operations(rt: &impl Print, m: &mut [u64]) -> io::Result<()> {
    say_answer(rt, "a product: ", operation(m, Op::Multiply, 0, 1))?;
    say_answer(rt, "a difference: ", subtract(m, 0, 1))?;
    full_sums(rt, m)
}

fn full_sums(rt: &impl Print, m: &mut [u64]) -> io::Result<()> {
    let three = [0, 1, 2];
    say_answer(rt, "a sum of three: ", sum(m, &three))?;
    say_answer(rt, "one that is there: ", operation(m, Op::Add, 1, 0))?;
    say_count(rt, "used: ", used(m))
}

// The last column and the one beyond.
fn columns(
    rt: &impl Print,
    m: &mut [u64],
    name: &str,
    last: Position,
    beyond: Position,
) -> io::Result<()> {
    print!(rt; "{name}")?;
    say_answer(rt, " 65,535: ", input(m, last))?;
    print!(rt; "{name}")?;
    say_answer(rt, " 65,536: ", input(m, beyond))
}

fn main_columns(rt: &impl Print, m: &mut [u64]) -> io::Result<()> {
    columns(
        rt,
        m,
        "main column",
        Position::Main(65535),
        Position::Main(65536),
    )?;
    columns(
        rt,
        m,
        "next main column",
        Position::NextMain(65535),
        Position::NextMain(65536),
    )
}

fn aux_columns(rt: &impl Print, m: &mut [u64]) -> io::Result<()> {
    columns(
        rt,
        m,
        "auxiliary column",
        Position::Aux(65535),
        Position::Aux(65536),
    )?;
    columns(
        rt,
        m,
        "next auxiliary column",
        Position::NextAux(65535),
        Position::NextAux(65536),
    )
}

// Columns and challenges of a dual-row circuit.
fn indices(rt: &impl Print) -> io::Result<()> {
    let mut m = [0u64; 128];
    say_started(rt, start(&mut m, RowKind::Dual))?;
    main_columns(rt, &mut m)?;
    aux_columns(rt, &mut m)?;
    say_answer(rt, "challenge 65,535: ", challenge(&mut m, 65535))?;
    say_answer(rt, "challenge 65,536: ", challenge(&mut m, 65536))?;
    say_count(rt, "used: ", used(&m))
}

// x⁴ by two squarings, x the main column 0, lowered to a target with a main count.
fn lowering(rt: &impl Print, what: &str, target: u64, count: u64) -> io::Result<()> {
    let mut m = [0u64; 128];
    let mut roots = [2u64; 1];
    let mut main = [0u64; 4];
    let mut aux = [0u64; 4];
    say_started(rt, start(&mut m, RowKind::Single))?;
    let _ = input(&mut m, Position::Main(0));
    let _ = operation(&mut m, Op::Multiply, 0, 0);
    let _ = operation(&mut m, Op::Multiply, 1, 1);
    say_lowered(
        rt,
        what,
        lower(&mut m, &mut roots, target, count, 0, &mut main, &mut aux),
    )
}

// From node k up to n, the next node is node k, twice.
fn double(m: &mut [u64], o: Op, first: u64, n: u64) {
    for k in first..n {
        let _ = operation(m, o, k, k);
    }
}

// All of these nodes together, the first up to the n-th: 1 + 2 + 4 + .. times the first.
fn join(m: &mut [u64], o: Op, n: u64) -> u64 {
    let mut all: u64 = 0;
    for k in 1..=n {
        all = operation(m, o, all, k).unwrap_or(0);
    }
    all
}

// Whether a degree that is told is the right one.
fn say_equal(rt: &impl Print, n: i64, right: i64) -> io::Result<()> {
    if n == right {
        print!(rt; "told")
    } else {
        print!(rt; "another is told")
    }
}

fn say_degree(rt: &impl Print, what: &str, d: Result<i64, Refusal>, right: i64) -> io::Result<()> {
    print!(rt; "{what}")?;
    match d {
        Ok(n) => say_equal(rt, n, right)?,
        Err(r) => say(rt, "refused ", number_of(r))?,
    }
    println!(rt; "")
}

// x^(2^31 - 1), and x times that.
fn degrees(rt: &impl Print) -> io::Result<()> {
    let mut m = [0u64; 512];
    say_started(rt, start(&mut m, RowKind::Single))?;
    let _ = input(&mut m, Position::Main(0));
    double(&mut m, Op::Multiply, 0, 30);
    let top = join(&mut m, Op::Multiply, 30);
    say_degree(rt, "degree 2,147,483,647: ", degree(&m, top), 2147483647)?;
    let over = operation(&mut m, Op::Multiply, top, 0).unwrap_or(0);
    say_degree(rt, "degree 2,147,483,648: ", degree(&m, over), 2147483648)
}

// The paths from the roots to node 0, counted.
fn say_paths(rt: &impl Print, what: &str, m: &mut [u64], roots: &[u64]) -> io::Result<()> {
    print!(rt; "{what}")?;
    match count_references(m, roots) {
        Ok(()) => say(rt, "", read(m, 0).map_or(0, |n| n.references))?,
        Err(r) => say(rt, "refused ", number_of(r))?,
    }
    println!(rt; "")
}

// (2^32 - 1)·x as a sum, and x added to that.
fn paths(rt: &impl Print) -> io::Result<()> {
    let mut m = [0u64; 512];
    say_started(rt, start(&mut m, RowKind::Single))?;
    let _ = input(&mut m, Position::Main(0));
    double(&mut m, Op::Add, 0, 31);
    let top = join(&mut m, Op::Add, 31);
    say_paths(rt, "4,294,967,295 paths: ", &mut m, &[top])?;
    let over = operation(&mut m, Op::Add, top, 0).unwrap_or(0);
    say_paths(rt, "4,294,967,296 paths: ", &mut m, &[over])?;
    say_paths(rt, "the same root twice: ", &mut m, &[over, over])
}

fn say_lowering(rt: &impl Print, what: &str, m: &mut [u64], roots: &mut [u64]) -> io::Result<()> {
    let mut main = [0u64; 64];
    let mut aux = [0u64; 64];
    say_lowered(rt, what, lower(m, roots, 2, 2, 0, &mut main, &mut aux))
}

// x³, doubled 31 times, is high each time: x² has 1 + 2 + 4 + .. = 2^32 - 1 occurrences, and one more below x²·y.
fn occurrences(rt: &impl Print) -> io::Result<()> {
    let mut m = [0u64; 1024];
    say_started(rt, start(&mut m, RowKind::Single))?;
    let _ = input(&mut m, Position::Main(0));
    let _ = operation(&mut m, Op::Multiply, 0, 0);
    let _ = operation(&mut m, Op::Multiply, 1, 0);
    double(&mut m, Op::Add, 2, 33);
    let y = input(&mut m, Position::Main(1)).unwrap_or(0);
    let other = operation(&mut m, Op::Multiply, 1, y).unwrap_or(0);
    say_lowering(rt, "4,294,967,296 occurrences: ", &mut m, &mut [33, other])?;
    say_lowering(rt, "4,294,967,295 occurrences: ", &mut m, &mut [33])
}

fn main(rt: HostRuntime) -> io::Result<()> {
    nodes(&rt)?;
    indices(&rt)?;
    lowering(&rt, "target 1: ", 1, 1)?;
    lowering(&rt, "target 2: ", 2, 1)?;
    lowering(&rt, "target 2, main count 0: ", 2, 0)?;
    lowering(&rt, "target 4, nothing to lower, main count 0: ", 4, 0)?;
    lowering(&rt, "target 2, main count 65,533: ", 2, 65533)?;
    lowering(&rt, "target 2, main count 65,534: ", 2, 65534)?;
    lowering(&rt, "target 2, main count 65,535: ", 2, 65535)?;
    degrees(&rt)?;
    paths(&rt)?;
    occurrences(&rt)
}
