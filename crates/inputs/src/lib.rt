// The program's arguments, and reading into lent bytes.
#![tactic(auto)]

ghost use Rattle.std.specs.Prelude.{ℕ, ◌<◌, ◌≤◌, length, take, IfOk, OnErr, IsSome, IsUtf8};
ghost use Rattle.std.specs.Io.KnownBytes.{Consumes, IsAtEnd};

use std::env::Env;
use std::fs::Files;
use std::io::Read;
use std::{fs, io, str};

// Reads until the bytes are full or the input ends, and answers how many were read. After an error the first of them are what was read
// until then.
pub fn read_full<R: Read>(input: &mut R, part: &mut [u8]) -> io::Result<usize>
    ensures bound { IfOk result (λ n. n ≤ length part.new) }
    ensures bytes { IfOk result (λ n. Consumes (R.remaining input.old) (R.remaining input.new) (take n part.new)) }
    ensures end { IfOk result (λ n. n < length part.new → IsAtEnd (R.remaining input.new)) }
    ensures err { OnErr result ((n : ℕ) × ((n ≤ length part.new) × Consumes (R.remaining input.old) (R.remaining input.new) (take n part.new))) }
{
    let mut done = 0;
    while done < part.len() {
        let n = input.read(&mut part[done..])?;
        if n == 0 {
            return Ok(done);
        }
        done += n;
    }
    Ok(done)
}

// Puts argument i at the front of the bytes, and answers how long it is: 0 where there is none, or none that fits.
pub fn argument(rt: &impl Env, i: usize, name: &mut [u8]) -> usize
    ensures { result ≤ length name.new }
{
    rt.arg(i, name).unwrap_or(0)
}

// Opens the file of this name for reading; none where it cannot be opened, or its name is no text.
pub fn opened<R: Files>(rt: &R, name: &[u8]) -> Option<R::File>
    ensures { IsSome result → IsUtf8 name.now }
{
    let path = str::from_utf8(name).ok()?;
    fs::open(rt, path).ok()
}
