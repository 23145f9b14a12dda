// A leaf is equal by structure to the nodes that have its words, so it is found, and made, without class tables.
ghost use Rattle.std.specs.Prelude.{◌≡◌, ◌+◌, ◌≤◌, length};
ghost use Rattle.layout.specs.Words.{offset};
ghost use Rattle.classes.specs.Table.{listed};
ghost use Rattle.building.specs.Building.{find, find_or_make};
ghost use Rattle.building.specs.Told.{told_id};
ghost use Rattle.build_calls.specs.Answers.{ending};
ghost use Rattle.build_calls.specs.Leaves.{has_words, Leafy};

use circuit::check::limit_of;
use circuit::place::{FourWords, expression_at, make, node_at, words_of};
use classes::table::same_words;
use layout::node::Expression;
use layout::refusal::Refusal;

// Whether node i is registered and has these words.
fn has_words(m: &[u64], i: u64, w: FourWords) -> bool
    requires { offset i + 6 ≤ length m.now }
    ensures { result ≡ has_words m.now (listed w) i }
{
    node_at(m, i).registered && same_words(words_of(expression_at(m, i)), w)
}

// The least registered node that is equal to a leaf.
fn find_leaf(m: &[u64], e: Expression) -> Option<u64>
    requires { Leafy m.now e }
    ensures { result ≡ find m.now e }
{
    let w = words_of(e);
    for i in 0..m[1] {
        if has_words(m, i, w) {
            return Some(i);
        }
    }
    None
}

// That one, else a new node, if there is a place for it.
pub(crate) fn leaf(m: &mut [u64], e: Expression) -> Result<u64, Refusal>
    requires { Leafy m.old e }
    ensures { told_id result m.new ≡ ending m.old (find_or_make m.old e) }
{
    let found = find_leaf(m, e);
    match found {
        Some(i) => Ok(i),
        None => {
            let u = m[1];
            if limit_of(m) <= u {
                return Err(Refusal::Full);
            }
            make(m, e);
            Ok(u)
        }
    }
}
