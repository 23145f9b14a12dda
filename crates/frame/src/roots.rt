// The roots' words: how many there are, then their ids. What no caller of ours writes means something too: never more than there is room for.
ghost use Rattle.std.specs.Prelude.{◌≡◌, ◌<◌};
ghost use Rattle.framing.specs.States.{root_room, root_count, with_root, without_roots};

const MOST_ROOTS: usize = 64;

pub(crate) fn room_of(roots: &[u64]) -> usize
    ensures { result ≡ root_room roots.now }
{
    if roots.len() == 0 {
        return 0;
    }
    if roots.len() - 1 < MOST_ROOTS {
        return roots.len() - 1;
    }
    MOST_ROOTS
}

pub(crate) fn count_of(roots: &[u64]) -> usize
    ensures { result ≡ root_count roots.now }
{
    let room = room_of(roots);
    if room == 0 {
        return 0;
    }
    if roots[0] < room as u64 {
        return roots[0] as usize;
    }
    room
}

// One more, where there is room.
pub(crate) fn add(roots: &mut [u64], i: u64)
    requires { root_count roots.old < root_room roots.old }
    ensures { roots.new ≡ with_root roots.old i }
{
    let n = count_of(roots);
    roots[1 + n] = i;
    roots[0] = (1 + n) as u64;
}

// No roots.
pub(crate) fn clear(roots: &mut [u64])
    ensures { roots.new ≡ without_roots roots.old }
{
    if roots.len() == 0 {
        return;
    }
    roots[0] = 0;
}
