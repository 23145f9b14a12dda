// The test for BAD_ID, of a list of ids.
ghost use Rattle.std.specs.Prelude.{◌≡◌, ◌≤◌, length};
ghost use Rattle.layout.specs.NotCircuit.{bad_id};

// Whether some id is not below the used count.
pub fn bad_id(m: &[u64], ids: &[u64]) -> bool
    requires { 2 ≤ length m.now }
    ensures { result ≡ bad_id m.now ids.now }
{
    let n = m[1];
    ids.iter().any(|&id| n <= id)
}
