// The records of calls: a circuit begins, a frame or a sum is answered. What an accepted lowering leaves is tried.
use crate::text::{after, byte_at, number};
use crate::trial::{Shape, try_lowering};
use crate::words::{CIRCUITS, LOWERINGS, add, copy, get, part, put};
use build_calls::calls::sum;
use frame::calls::frame;

// The words of a circuit of 512 places.
pub(crate) const WORDS: usize = 3074;

// The number of roots, and 64 places.
pub(crate) const LISTED: usize = 65;

// The frame that lowers.
const LOWER: u64 = 10;

// A circuit begins: what was is forgotten.
fn begin(t: &mut [u64], m: &mut [u64], roots: &mut [u64]) {
    add(t, CIRCUITS, 1);
    put(m, 0, 0);
    put(roots, 0, 0);
}

// The roots, which stand behind their number.
fn listed(roots: &[u64]) -> &[u64] {
    let n = std::num::wrapping_add_u64(get(roots, 0), 1);
    part(roots, 1, n as usize)
}

// Whether a frame lowers, and is accepted.
fn lowers(request: &[u8], answer: &[u8]) -> bool {
    if number(request, 0, 1) != LOWER {
        return false;
    }
    number(answer, 0, 1) == 0
}

// What a lowering's frame says, and its answer.
fn shape_of(kind: u64, request: &[u8], answer: &[u8]) -> Shape {
    Shape {
        kind: kind,
        main: number(request, 6, 2),
        aux: number(request, 10, 2),
        mains: number(answer, 2, 2),
        auxs: number(answer, 6, 2),
    }
}

// The circuit and its roots as they are before a frame.
fn keep(old: &mut [u64], old_roots: &mut [u64], m: &[u64], roots: &[u64]) {
    copy(old, m);
    copy(old_roots, roots);
}

// What a frame leaves, if it lowered.
fn try_frame(
    t: &mut [u64],
    old: &[u64],
    old_roots: &[u64],
    m: &[u64],
    roots: &[u64],
    main: &[u64],
    aux: &[u64],
    request: &[u8],
    answer: &[u8],
) {
    if lowers(request, answer) {
        add(t, LOWERINGS, 1);
        let s = shape_of(get(m, 0), request, answer);
        let n = s.mains as usize;
        let k = s.auxs as usize;
        try_lowering(
            t,
            old,
            listed(old_roots),
            m,
            listed(roots),
            part(main, 0, n),
            part(aux, 0, k),
            s,
        );
    }
}

// A frame is answered. The circuit before it is kept in the words lent for it.
fn answer_frame(
    t: &mut [u64],
    m: &mut [u64],
    roots: &mut [u64],
    main: &mut [u64],
    aux: &mut [u64],
    answer: &mut [u8],
    old: &mut [u64],
    old_roots: &mut [u64],
    request: &[u8],
) {
    keep(old, old_roots, m, roots);
    frame(m, roots, main, aux, request, answer);
    try_frame(t, old, old_roots, m, roots, main, aux, request, answer);
}

fn call(t: &mut [u64], m: &mut [u64], roots: &mut [u64], request: &[u8]) {
    let mut main = [0u64; 512];
    let mut aux = [0u64; 512];
    let mut answer = [0u8; 4107];
    let mut old = [0u64; WORDS];
    let mut old_roots = [0u64; LISTED];
    answer_frame(
        t,
        m,
        roots,
        &mut main,
        &mut aux,
        &mut answer,
        &mut old,
        &mut old_roots,
        request,
    );
}

// Reads ids, as many as there are places.
fn read_ids(list: &mut [u64], text: &[u8]) {
    for (place, id) in list.iter_mut().zip(text.chunks(4)) {
        *place = number(id, 0, 2);
    }
}

// A sum: the number of its ids, and these. Its answer is the program replay's to compare.
fn summed(m: &mut [u64], line: &[u8]) {
    let mut ids = [0u64; 256];
    read_ids(&mut ids, after(line, 3));
    let _ = sum(m, part(&ids, 0, number(line, 1, 1) as usize));
}

// A line is one record; its first character says which. Those that say what was answered are no calls.
pub(crate) fn record(t: &mut [u64], m: &mut [u64], roots: &mut [u64], line: &[u8]) {
    match byte_at(line, 0) {
        b'c' => begin(t, m, roots),
        b'>' => call(t, m, roots, after(line, 1)),
        b's' => summed(m, line),
        _ => {}
    }
}
