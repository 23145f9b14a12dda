// How every call answers: it returns the number of its refusal, or 0, and its values stand in the first places of `out`, as far as there are places.
ghost use Rattle.std.specs.Prelude.{◌≡◌, [], ◌∷◌, set};
ghost use Rattle.std.proofs.lemmas.List.Edits.{sets};
ghost use Rattle.layout.specs.Answers.{told_node, told_count};
ghost use Rattle.reading.specs.Answers.{told_test, told_degree, told_value};
ghost use Rattle.lowering.specs.Lowering.{Lowering};
ghost use Rattle.lower.specs.Told.{told_lowering};
ghost use Rattle.abi.specs.Answers.{Answered, bit, signed_word, as_number, as_pair, as_bit, as_degree, as_triple, as_node};

use arithmetic::Triple;
use circuit::place::{FourWords, words_of};
use circuit::refusal::number_of;
use layout::node::Node;
use layout::refusal::Refusal;

// v in place k, where there is one.
fn put(out: &mut [u64], k: usize, v: u64)
    ensures { out.new ≡ set out.old k v }
{
    if k < out.len() {
        out[k] = v;
    }
}

pub fn give(out: &mut [u64], number: u64, v: u64) -> u64
    ensures { (result ≡ number) × (out.new ≡ sets out.old 0 (v ∷ [])) }
{
    put(out, 0, v);
    number
}

fn give_two(out: &mut [u64], number: u64, v: u64, w: u64) -> u64
    ensures { (result ≡ number) × (out.new ≡ sets out.old 0 (v ∷ w ∷ [])) }
{
    put(out, 0, v);
    put(out, 1, w);
    number
}

fn give_three(out: &mut [u64], number: u64, u: u64, v: u64, w: u64) -> u64
    ensures { (result ≡ number) × (out.new ≡ sets out.old 0 (u ∷ v ∷ w ∷ [])) }
{
    put(out, 0, u);
    put(out, 1, v);
    put(out, 2, w);
    number
}

fn give_six(out: &mut [u64], number: u64, w: FourWords, mark: u64, references: u64) -> u64
    ensures { (result ≡ number) × (out.new ≡ sets out.old 0 (w.kind ∷ w.first ∷ w.second ∷ w.third ∷ mark ∷ references ∷ [])) }
{
    put(out, 0, w.kind);
    put(out, 1, w.first);
    put(out, 2, w.second);
    put(out, 3, w.third);
    put(out, 4, mark);
    put(out, 5, references);
    number
}

// Yes is 1.
fn bit(b: bool) -> u64
    ensures { result ≡ bit b }
{
    u64::from(b)
}

// -1, the one negative degree, is the greatest word.
fn signed_word(d: i64) -> u64
    ensures { result ≡ signed_word d }
{
    if d < 0 {
        return 18446744073709551615;
    }
    d as u64
}

// A number: an id, or how many. What else the call was lent to change, it has changed before (number_on, proofs/Passing.antt).
pub fn number(out: &mut [u64], answer: Result<u64, Refusal>) -> u64
    ensures { Answered as_number (told_count answer) result out.old out.new tt }
{
    match answer {
        Ok(n) => give(out, 0, n),
        Err(r) => give(out, number_of(r), 0),
    }
}

fn give_node(out: &mut [u64], number: u64, node: Node) -> u64
    ensures { (result ≡ number) × (out.new ≡ sets out.old 0 (as_node node)) }
{
    let e = node.expression;
    let mark = bit(node.registered);
    give_six(out, number, words_of(e), mark, node.references)
}

pub fn node(out: &mut [u64], answer: Result<Node, Refusal>) -> u64
    ensures { Answered as_node (told_node answer) result out.old out.new tt }
{
    match answer {
        Ok(n) => give_node(out, 0, n),
        Err(r) => give_six(
            out,
            number_of(r),
            FourWords {
                kind: 0,
                first: 0,
                second: 0,
                third: 0,
            },
            0,
            0,
        ),
    }
}

pub fn test(out: &mut [u64], answer: Result<bool, Refusal>) -> u64
    ensures { Answered as_bit (told_test answer) result out.old out.new tt }
{
    match answer {
        Ok(b) => give(out, 0, bit(b)),
        Err(r) => give(out, number_of(r), 0),
    }
}

pub fn degree(out: &mut [u64], answer: Result<i64, Refusal>) -> u64
    ensures { Answered as_degree (told_degree answer) result out.old out.new tt }
{
    match answer {
        Ok(d) => give(out, 0, signed_word(d)),
        Err(r) => give(out, number_of(r), 0),
    }
}

pub fn value(out: &mut [u64], answer: Result<Triple, Refusal>) -> u64
    ensures { Answered as_triple (told_value answer) result out.old out.new tt }
{
    match answer {
        Ok(x) => give_three(out, 0, x.c0, x.c1, x.c2),
        Err(r) => give_three(out, number_of(r), 0, 0, 0),
    }
}

pub fn lowered(out: &mut [u64], answer: Result<(u64, u64), Refusal>) -> u64
    ensures { (lent : Lowering) → Answered as_pair (told_lowering answer lent) result out.old out.new lent }
{
    match answer {
        Ok((a, b)) => give_two(out, 0, a, b),
        Err(r) => give_two(out, number_of(r), 0, 0),
    }
}
