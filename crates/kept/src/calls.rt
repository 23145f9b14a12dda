// One line of bytes in, one line out.
ghost use Rattle.std.specs.Prelude.{◌≡◌};
ghost use Rattle.framing.specs.States.{lent};
ghost use Rattle.framing.specs.Frames.{framed, frame_call};
ghost use Rattle.kept.specs.Keeps.{Keeps};

use crate::respond::respond;
use frame::reply::write;
use frame::request::read;

// Answers a line as `frame::calls::frame` does. Before the first line the circuit's words are all zero, and the tables have room for 4,096 nodes.
pub fn frame(
    m: &mut [u64],
    roots: &mut [u64],
    main: &mut [u64],
    aux: &mut [u64],
    numbers: &mut [u64],
    table: &mut [u64],
    least: &mut [u64],
    line: &[u8],
    answer: &mut [u8],
) -> usize
    requires { Keeps m.old numbers.old table.old least.old }
    ensures { (framed result (lent m.new roots.new main.new aux.new) answer.new ≡ frame_call (lent m.old roots.old main.old aux.old) line.now answer.old) × Keeps m.new numbers.new table.new least.new }
{
    let reply = respond(m, roots, main, aux, numbers, table, least, read(line));
    write(answer, reply, main, aux)
}
