// The records of calls: a circuit begins, a frame or a sum is answered, and the answer is compared.
use crate::tally::{
    ANSWER, CALLED, CIRCUITS, FRAMES, ID, LOWERINGS, NUMBER, ROWS, STAGE, SUBSTITUTIONS, SUMS,
    WRONG, add, compare, flag, get, must, part, put, turn,
};
use crate::text::{after, before, number};
use build_calls::calls::sum;
use circuit::refusal::number_of;
use frame::calls::frame;
use layout::refusal::Refusal;

// A frame waits for its answer, or a sum does.
const FRAME: u64 = 1;

const SUM: u64 = 2;

// The roots, which stand behind their number.
pub(crate) fn listed(roots: &[u64]) -> &[u64] {
    let n = std::num::wrapping_add_u64(get(roots, 0), 1);
    part(roots, 1, n as usize)
}

// A circuit begins: what was is forgotten. Until it starts, its row kind is 0.
pub(crate) fn begin(t: &mut [u64], m: &mut [u64], roots: &mut [u64], tables: &mut [u64]) {
    turn(t, STAGE, 0, 0);
    turn(t, CALLED, 0, 0);
    add(t, CIRCUITS, 1);
    put(m, 0, 0);
    put(roots, 0, 0);
    tables.fill(0);
}

fn count_lowering(t: &mut [u64], answer: &[u8]) {
    let main = number(answer, 2, 2);
    let aux = number(answer, 6, 2);
    add(t, LOWERINGS, 1);
    add(t, SUBSTITUTIONS, std::num::wrapping_add_u64(main, aux));
}

// What a frame says of the circuit: 00 its rows, and 0a that it was lowered.
fn note(t: &mut [u64], frame: &[u8], answer: &[u8]) {
    match number(frame, 0, 1) {
        0 => put(t, ROWS, number(frame, 2, 1)),
        10 => count_lowering(t, answer),
        _ => {}
    }
}

// A frame is answered.
pub(crate) fn call(
    t: &mut [u64],
    m: &mut [u64],
    roots: &mut [u64],
    answer: &mut [u8],
    line: &[u8],
) {
    let mut main = [0u64; 512];
    let mut aux = [0u64; 512];
    let request = after(line, 1);
    let n = frame(m, roots, &mut main, &mut aux, request, answer);
    turn(t, CALLED, 0, FRAME);
    put(t, ANSWER, n as u64);
    note(t, request, answer);
    add(t, FRAMES, 1);
}

// Reads ids, as many as there are places.
fn read_ids(list: &mut [u64], text: &[u8]) {
    for (place, id) in list.iter_mut().zip(text.chunks(4)) {
        *place = number(id, 0, 2);
    }
}

fn keep_sum(t: &mut [u64], said: Result<u64, Refusal>) {
    match said {
        Ok(i) => {
            put(t, NUMBER, 0);
            put(t, ID, i);
        }
        Err(r) => put(t, NUMBER, number_of(r)),
    }
}

// A sum is answered.
pub(crate) fn summed(t: &mut [u64], m: &mut [u64], line: &[u8]) {
    let mut ids = [0u64; 256];
    let n = number(line, 1, 1);
    let text = after(line, 3);
    must(t, (text.len() / 4) as u64 == n);
    read_ids(&mut ids, text);
    keep_sum(t, sum(m, part(&ids, 0, n as usize)));
    turn(t, CALLED, 0, SUM);
    add(t, SUMS, 1);
}

fn compare_sum(t: &mut [u64], line: &[u8]) {
    let refusal = get(t, NUMBER);
    let i = get(t, ID);
    compare(t, refusal, number(line, 1, 1));
    compare(t, i, number(line, 3, 2));
    must(t, line.len() == 7);
}

// A frame's answer is the same text, and a line feed.
fn compare_answer(t: &mut [u64], answer: &[u8], line: &[u8]) {
    let n = get(t, ANSWER);
    let text = before(answer, std::num::wrapping_sub_u64(n, 1) as usize);
    compare(t, flag(text == after(line, 1)), 1);
}

// The answer to the call before it.
pub(crate) fn answered(t: &mut [u64], answer: &[u8], line: &[u8]) {
    let called = get(t, CALLED);
    put(t, CALLED, 0);
    match called {
        FRAME => compare_answer(t, answer, line),
        SUM => compare_sum(t, line),
        _ => put(t, WRONG, 1),
    }
}
