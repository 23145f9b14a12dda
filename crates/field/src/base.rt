// The base field. Every word stands for its remainder modulo p = 2^64 - 2^32 + 1, so each public function takes all words,
// and answers with a word below p.
//
// Two facts carry the whole file: 2^64 is 2^32 - 1 modulo p, and so 2^96 = 2^64 · 2^32 is 2^64 - 2^32, which is -1.
ghost use Rattle.std.specs.Prelude.{◌≡◌, ◌+◌, ◌*◌, ◌%◌, ◌<◌, ◌≤◌};
ghost use Rattle.arithmetic.specs.Base.{p, canonical, add, subtract, negate, multiply};
ghost use Rattle.field.specs.Words.{Added, Difference, Product, WithProduct, value};

use std::num::{wrapping_add_u64, wrapping_sub_u64};

pub const P: u64 = 18446744069414584321;

// -1
pub const MINUS_ONE: u64 = P - 1;

// 2^64 modulo p: what a sum that wrapped has missed, and what a difference that wrapped has too much.
const MISSED: u64 = 4294967295;

// A number below 2^130, in three words: top·2^128 + high·2^64 + low.
#[derive(Clone, Copy)]
pub(crate) struct Wide {
    pub(crate) top: u64,
    pub(crate) high: u64,
    pub(crate) low: u64,
}

// A word and the carry out of it.
#[derive(Clone, Copy)]
struct Carried {
    word: u64,
    carry: u64,
}

// The test for a word that is its own remainder.
pub fn is_canonical(a: u64) -> bool
    ensures { result ≡ canonical a }
{
    a < P
}

pub fn add(a: u64, b: u64) -> u64
    ensures { result ≡ add a b }
{
    sum(remainder(a), remainder(b))
}

pub fn subtract(a: u64, b: u64) -> u64
    ensures { result ≡ subtract a b }
{
    difference(remainder(a), remainder(b))
}

pub fn negate(b: u64) -> u64
    ensures { result ≡ negate b }
{
    difference(0, remainder(b))
}

pub fn multiply(a: u64, b: u64) -> u64
    ensures { result ≡ multiply a b }
{
    reduced(product(a, b))
}

// A word modulo p. One step does, since 2^64 is below 2·p.
fn remainder(a: u64) -> u64
    ensures { result ≡ a % p }
{
    if a >= P { a - P } else { a }
}

// a + b modulo p, wrapped at 2^64 and then corrected: where it wrapped it missed 2^64, which goes back as 2^32 - 1. Below 2·p one
// correction does. Two remainders keep to that, and so do the two parts that `reduced` adds.
pub(crate) fn sum(a: u64, b: u64) -> u64
    requires { a + b < 2 * p }
    ensures { result ≡ add a b }
{
    let s = wrapping_add_u64(a, b);
    if s < a {
        s + MISSED
    } else if s >= P {
        s - P
    } else {
        s
    }
}

// a - b, or a - b + p where that is negative: the wrapped difference is then 2^64 too large, which goes away as 2^32 - 1.
// For a below p this is a - b modulo p; a larger a gives a word that may be p or more.
pub(crate) fn difference(a: u64, b: u64) -> u64
    requires { b ≤ p }
    ensures { Difference a b result }
{
    let d = wrapping_sub_u64(a, b);
    if a < b { d - MISSED } else { d }
}

// The double-width product of two words, from the four products of their halves of 32 bits:
//
//     |     u1·v1     |     u0·v0     |
//             |     u1·v0     |
//             |     u0·v1     |
//
// The high word is added column by column, with what each column carries up: `right` and `left` are the cross products with
// what comes from below them. The low word may wrap, since only its lowest 64 bits count: u0·v0, and the low halves of the
// cross products moved up. Written in this order of sums, the whole is one multiplication to an optimising compiler.
pub(crate) fn product(u: u64, v: u64) -> Wide
    ensures { Product u v result }
{
    let u0 = u % 0x1_0000_0000;
    let u1 = u >> 32;
    let v0 = v % 0x1_0000_0000;
    let v1 = v >> 32;
    let p00 = u0 * v0;
    let p10 = u1 * v0;
    let p01 = u0 * v1;
    let p11 = u1 * v1;
    let right = p10 + (p00 >> 32);
    let left = right % 0x1_0000_0000 + p01;
    let cross = wrapping_add_u64(p10, p01);
    Wide {
        top: 0,
        high: p11 + (right >> 32) + (left >> 32),
        low: wrapping_add_u64((cross % 0x1_0000_0000) * 0x1_0000_0000, p00),
    }
}

// a + b in full: the word that wraps at 2^64, and the carry out of it.
fn adder(a: u64, b: u64) -> Carried
    ensures { Added a b result }
{
    let s = wrapping_add_u64(a, b);
    Carried {
        word: s,
        carry: if s < a { 1 } else { 0 },
    }
}

// a + u·v, word by word with the carries. A sum of products that stays wide is reduced once, and not once for each product.
pub(crate) fn with_product(a: Wide, u: u64, v: u64) -> Wide
    requires { a.top < 3 }
    ensures { WithProduct a u v result }
{
    let b = product(u, v);
    let low = adder(a.low, b.low);
    let high = adder(a.high, b.high + low.carry);
    Wide {
        top: a.top + high.carry,
        high: high.word,
        low: low.word,
    }
}

// The number w modulo p, as low - h1 + h0·(2^32 - 1): its 32-bit half h0 stands at 2^64, and all that lies above, h1, at 2^96.
pub(crate) fn reduced(w: Wide) -> u64
    requires { w.top < 4 }
    ensures { result ≡ value w % p }
{
    let h1 = (w.high >> 32) + w.top * 0x1_0000_0000;
    let h0 = w.high % 0x1_0000_0000;
    sum(difference(w.low, h1), h0 * MISSED)
}

// u0·v0 + u1·v1 modulo p, reduced once.
pub(crate) fn two_products(u0: u64, v0: u64, u1: u64, v1: u64) -> u64
    ensures { result ≡ add (multiply u0 v0) (multiply u1 v1) }
{
    reduced(with_product(product(u0, v0), u1, v1))
}

// u0·v0 + u1·v1 + u2·v2 modulo p, reduced once.
pub(crate) fn three_products(u0: u64, v0: u64, u1: u64, v1: u64, u2: u64, v2: u64) -> u64
    ensures { result ≡ add (add (multiply u0 v0) (multiply u1 v1)) (multiply u2 v2) }
{
    reduced(with_product(with_product(product(u0, v0), u1, v1), u2, v2))
}
