// The fields' products as a static library, for programs in other languages. A call into it cannot be inlined there, so chains
// are here too: they make n products in one call.
#![tactic(auto)]

ghost use Rattle.std.specs.Prelude.{◌≡◌};
ghost use Rattle.arithmetic.specs.Base.{multiply};
ghost use Rattle.arithmetic.specs.Extension.{triple};
ghost use Rattle.field_abi.specs.Chains.{word_chain, triple_chain};

use arithmetic::Triple;
use field::{base, extension};

#[unsafe(no_mangle)]
pub extern "C" fn field_multiply(a: u64, b: u64) -> u64
    ensures { result ≡ multiply a b }
{
    base::multiply(a, b)
}

// n products from a and b on, each of the two words before it.
#[unsafe(no_mangle)]
pub extern "C" fn field_chain(a: u64, b: u64, n: u64) -> u64
    ensures { result ≡ word_chain a b n }
{
    let mut x = a;
    let mut y = b;
    for _ in 0..n {
        let z = base::multiply(x, y);
        x = y;
        y = z;
    }
    x
}

// The lowest word of the same in the extension.
#[unsafe(no_mangle)]
pub extern "C" fn field_triple_chain(
    a0: u64,
    a1: u64,
    a2: u64,
    b0: u64,
    b1: u64,
    b2: u64,
    n: u64,
) -> u64
    ensures { result ≡ (triple_chain (triple a0 a1 a2) (triple b0 b1 b2) n).c0 }
{
    let mut x = Triple {
        c0: a0,
        c1: a1,
        c2: a2,
    };
    let mut y = Triple {
        c0: b0,
        c1: b1,
        c2: b2,
    };
    for _ in 0..n {
        let z = extension::multiply(x, y);
        x = y;
        y = z;
    }
    x.c0
}
