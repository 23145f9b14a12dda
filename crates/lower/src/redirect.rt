// The redirect: every operand of a registered node and every root that names the chosen node now names the new input.
ghost use Rattle.std.specs.Prelude.{◌≡◌, map, ◌+◌, ◌<◌, ◌≤◌, length};
ghost use Rattle.layout.specs.Words.{used, limit, offset};
ghost use Rattle.lowering.specs.Lowering.{renamed, rename_operands, redirected};

use circuit::check::step_at;
use circuit::place::{node_at, write_word};

// s becomes n where it is named.
fn rename(s: u64, n: u64, i: u64) -> u64
    ensures { result ≡ renamed s n i }
{
    if i == s { n } else { i }
}

// Both operands of node i, where it is an operation. A loose node keeps its own.
fn rename_operands(m: &mut [u64], s: u64, n: u64, i: u64)
    requires { offset i + 6 ≤ length m.old }
    ensures { m.new ≡ rename_operands s n m.old i }
{
    let node = node_at(m, i);
    if !node.registered {
        return;
    }
    let operands = step_at(m, i);
    match operands {
        None => {}
        Some((l, r)) => {
            write_word(m, i, 1, rename(s, n, l));
            write_word(m, i, 2, rename(s, n, r));
        }
    }
}

// The chosen node becomes loose, and each registered node that used it uses the new input. The chosen node comes first: its own operands stay.
pub(crate) fn redirect(m: &mut [u64], s: u64, n: u64)
    requires { (s < used m.old) × (used m.old ≤ limit m.old) }
    ensures { m.new ≡ redirected m.old s n }
{
    write_word(m, s, 4, 0);
    for i in 0..m[1] {
        rename_operands(m, s, n, i);
    }
}

// The roots, too.
pub(crate) fn rename_roots(roots: &mut [u64], s: u64, n: u64)
    ensures { roots.new ≡ map (renamed s n) roots.old }
{
    for root in roots {
        *root = rename(s, n, *root);
    }
}
