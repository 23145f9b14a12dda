// The challenges of a line, in the place of those before.
ghost use Rattle.std.specs.Prelude.{◌≡◌, [], ◌∷◌, ◌+◌, ◌*◌, ◌≤◌, length, take};
ghost use Rattle.layout.specs.Lists.{any};
ghost use Rattle.layout.specs.NotCircuit.{bad_word};
ghost use Rattle.layout.specs.Answers.{answer_number};
ghost use Rattle.framing.specs.Digits.{bytes_of};
ghost use Rattle.framing.specs.States.{State};
ghost use Rattle.desk.specs.declared.Latest.{Latest};
ghost use Rattle.desk.specs.Words.{words_at};
ghost use Rattle.desk.specs.Desks.{desk};
ghost use Rattle.desk.specs.Lines.{told, is_challenges, challenges_told};

use crate::words::read_words;
use circuit::check::bad_word;
use frame::digits::{all_digits, number};
use layout::refusal::Refusal;

const MOST: usize = 1024;

// Whether one of so many words, after so many bytes, is at or above p.
fn any_bad(line: &[u8], after: usize, n: usize) -> bool
    requires { after + 8 * n ≤ 65544 }
    ensures { result ≡ any bad_word (words_at n after (bytes_of line.now)) }
{
    for k in 0..n {
        if bad_word(number(line, 8, after + 8 * k)) {
            return true;
        }
    }
    false
}

fn is_challenges(line: &[u8], n: usize) -> bool
    requires { 48 * n ≤ length line.now }
    ensures { result ≡ is_challenges n line.now }
{
    if !all_digits(line) {
        return false;
    }
    if line.len() - 48 * n != 2 {
        return false;
    }
    n <= MOST
}

// How many words are kept then, and what is answered.
#[derive(Clone, Copy)]
pub struct Given {
    pub words: usize,
    pub answer: Result<(), Refusal>,
}

pub(crate) fn give(challenges: &mut [u64], given: usize, line: &[u8]) -> Given
    requires { (3072 ≤ length challenges.old) × (given ≤ 3072) }
    ensures { ((s : State) (l : Latest) → told (desk s l (take result.words challenges.new)) (answer_number result.answer ∷ []) ≡ challenges_told (desk s l (take given challenges.old)) line.now) × (result.words ≤ 3072) }
{
    let n = line.len() / 48;
    if !is_challenges(line, n) {
        return Given {
            words: given,
            answer: Err(Refusal::Frame),
        };
    }
    if any_bad(line, 1, 3 * n) {
        return Given {
            words: given,
            answer: Err(Refusal::BadWord),
        };
    }
    read_words(challenges, 0, line, 1, 3 * n);
    Given {
        words: 3 * n,
        answer: Ok(()),
    }
}
