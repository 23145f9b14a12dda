// A row's values, by a plan: a list of instructions, four words each, operands first. Nodes that pass the base test have words, the others triples.
ghost use Rattle.std.specs.Prelude.{◌≡◌, ◌≢◌, ◌+◌, ◌*◌, ◌<◌, length};
ghost use Rattle.filler.specs.Running.{instruction_at, word_of, both, mixed, triple_of, stepped, ran, Doable, Runnable};

use arithmetic::Triple;
use field::{base, extension};
use read::value::{entry_at, keep};

// What is worked out, the entry that it goes to, and two operands: entries, or a column's place in the row.
#[derive(Clone, Copy)]
pub struct Instruction {
    pub op: u64,
    pub to: u64,
    pub left: u64,
    pub right: u64,
}

fn instruction_at(plan: &[u64], q: u64) -> Instruction
    requires { 4 * q + 3 < length plan.now }
    ensures { result ≡ instruction_at plan.now q }
{
    let place = 4 * (q as usize);
    Instruction {
        op: plan[place],
        to: plan[place + 1],
        left: plan[place + 2],
        right: plan[place + 3],
    }
}

// 0 a cell of the row, 1 a sum, 2 a product.
fn word_of(x: Instruction, main: &[u64], words: &[u64]) -> u64
    requires { (x.op ≡ 0 → x.left < length main.now) × ((x.op ≢ 0 → x.left < length words.now) × (x.op ≢ 0 → x.right < length words.now)) }
    ensures { result ≡ word_of x main.now words.now }
{
    let left = x.left as usize;
    if x.op == 0 {
        return main[left];
    }
    let right = x.right as usize;
    if x.op == 1 {
        return base::add(words[left], words[right]);
    }
    base::multiply(words[left], words[right])
}

// 4 a sum, 5 a product.
fn both(op: u64, a: Triple, b: Triple) -> Triple
    ensures { result ≡ both op a b }
{
    if op == 4 {
        return extension::add(a, b);
    }
    extension::multiply(a, b)
}

// 6 a sum, 7 a product: base times extension is three products, not nine.
fn mixed(op: u64, w: u64, b: Triple) -> Triple
    ensures { result ≡ mixed op w b }
{
    if op == 6 {
        return extension::add(extension::lift(w), b);
    }
    extension::scale(w, b)
}

// 3 a cell of the row, 4 and 5 from two triples, 6 and 7 from a word and a triple, 8 a word lifted.
fn triple_of(x: Instruction, aux: &[u64], words: &[u64], triples: &[u64]) -> Triple
    requires { (x.op ≡ 3 → 3 * x.left + 2 < length aux.now) × ((x.op ≢ 3 → x.left < length words.now) × ((x.op ≢ 3 → 3 * x.left + 2 < length triples.now) × (x.op ≢ 3 → 3 * x.right + 2 < length triples.now))) }
    ensures { result ≡ triple_of x aux.now words.now triples.now }
{
    if x.op == 3 {
        return entry_at(aux, x.left);
    }
    if x.op < 6 {
        return both(x.op, entry_at(triples, x.left), entry_at(triples, x.right));
    }
    let left = x.left as usize;
    if x.op == 8 {
        return extension::lift(words[left]);
    }
    mixed(x.op, words[left], entry_at(triples, x.right))
}

fn step(x: Instruction, main: &[u64], aux: &[u64], words: &mut [u64], triples: &mut [u64])
    requires { Doable x main.now aux.now words.old triples.old }
    ensures { (words.new, triples.new) ≡ stepped x main.now aux.now (words.old, triples.old) }
{
    if x.op < 3 {
        let w = word_of(x, main, words);
        let place = x.to as usize;
        words[place] = w;
    } else {
        let v = triple_of(x, aux, words, triples);
        keep(triples, x.to, v);
    }
}

// The whole plan, on one row (a dual-row circuit's with the next row): what stood in the entries that it works out does not count.
pub(crate) fn run(
    plan: &[u64],
    many: u64,
    main: &[u64],
    aux: &[u64],
    words: &mut [u64],
    triples: &mut [u64],
)
    requires { Runnable plan.now many main.now aux.now words.old triples.old }
    ensures { (words.new, triples.new) ≡ ran plan.now main.now aux.now many (words.old, triples.old) }
{
    for q in 0..many {
        step(instruction_at(plan, q), main, aux, words, triples);
    }
}
