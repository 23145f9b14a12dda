// The extension field: triples by value. Each function takes all words, as the base field's do.
ghost use Rattle.std.specs.Prelude.{◌≡◌};
ghost use Rattle.arithmetic.specs.Extension as extension;
ghost use Rattle.arithmetic.specs.Unlift.{unlift};

use super::base;
use super::base::{difference, sum, three_products, two_products};
use arithmetic::Triple;

// The test for an element of the extension: each word is its own remainder.
pub fn is_canonical(a: Triple) -> bool
    ensures { result ≡ extension.canonical_triple a }
{
    base::is_canonical(a.c0) & (base::is_canonical(a.c1) & base::is_canonical(a.c2))
}

pub fn lift(b: u64) -> Triple
    ensures { result ≡ extension.lift b }
{
    Triple {
        c0: b,
        c1: 0,
        c2: 0,
    }
}

pub fn unlifts(a: Triple) -> bool
    ensures { result ≡ extension.unlifts a }
{
    (a.c1 == 0) & (a.c2 == 0)
}

pub fn unlift(a: Triple) -> Option<u64>
    ensures { result ≡ unlift a }
{
    if unlifts(a) { Some(a.c0) } else { None }
}

// Equality, word by word. All words are compared, here and in the tests above, so that nothing branches on them.
pub fn equal(a: Triple, b: Triple) -> bool
    ensures { result ≡ extension.same_triple a b }
{
    (a.c0 == b.c0) & ((a.c1 == b.c1) & (a.c2 == b.c2))
}

pub fn add(a: Triple, b: Triple) -> Triple
    ensures { result ≡ extension.plus a b }
{
    Triple {
        c0: base::add(a.c0, b.c0),
        c1: base::add(a.c1, b.c1),
        c2: base::add(a.c2, b.c2),
    }
}

pub fn subtract(a: Triple, b: Triple) -> Triple
    ensures { result ≡ extension.difference a b }
{
    Triple {
        c0: base::subtract(a.c0, b.c0),
        c1: base::subtract(a.c1, b.c1),
        c2: base::subtract(a.c2, b.c2),
    }
}

pub fn negate(a: Triple) -> Triple
    ensures { result ≡ extension.minus a }
{
    Triple {
        c0: base::negate(a.c0),
        c1: base::negate(a.c1),
        c2: base::negate(a.c2),
    }
}

// The product's five coefficients before reduction, those of 1, X, X², X³ and X⁴.
fn coefficients(a: Triple, b: Triple) -> [u64; 5]
    ensures { result ≡ extension.coefficients a b }
{
    let mut d = [0u64; 5];
    d[0] = base::multiply(a.c0, b.c0);
    d[1] = two_products(a.c0, b.c1, a.c1, b.c0);
    d[2] = three_products(a.c0, b.c2, a.c1, b.c1, a.c2, b.c0);
    d[3] = two_products(a.c1, b.c2, a.c2, b.c1);
    d[4] = base::multiply(a.c2, b.c2);
    d
}

// Places 3 and 4 are folded down: X³ = X - 1 goes to places 1 and 0, and X⁴ = X² - X to places 2 and 1.
pub fn multiply(a: Triple, b: Triple) -> Triple
    ensures { result ≡ extension.times a b }
{
    let d = coefficients(a, b);
    Triple {
        c0: difference(d[0], d[3]),
        c1: difference(sum(d[1], d[3]), d[4]),
        c2: sum(d[2], d[4]),
    }
}

// A base element times a triple: three products, where the general case takes nine.
pub fn scale(b: u64, a: Triple) -> Triple
    ensures { result ≡ extension.times (extension.lift b) a }
{
    Triple {
        c0: base::multiply(b, a.c0),
        c1: base::multiply(b, a.c1),
        c2: base::multiply(b, a.c2),
    }
}
