// One line of bytes in, one line out.
ghost use Rattle.std.specs.Prelude.{◌≡◌};
ghost use Rattle.framing.specs.States.{lent};
ghost use Rattle.framing.specs.Frames.{framed, frame_call};

use crate::reply::write;
use crate::request::read;
use crate::respond::respond;

// Answers a line, given without its line feed: how many bytes the answer has, its line feed included. They are written as far as there are places;
// 4,107 are enough for lists of 512. The caller keeps the circuit's words, all zero before the first line, the roots' (their number, then 64 places)
// and the two lists for lowering.
pub fn frame(
    m: &mut [u64],
    roots: &mut [u64],
    main: &mut [u64],
    aux: &mut [u64],
    line: &[u8],
    answer: &mut [u8],
) -> usize
    ensures { framed result (lent m.new roots.new main.new aux.new) answer.new ≡ frame_call (lent m.old roots.old main.old aux.old) line.now answer.old }
{
    let reply = respond(m, roots, main, aux, read(line));
    write(answer, reply, main, aux)
}
