// The two fields of document 01: the base field of p = 2^64 - 2^32 + 1 elements, and its extension by X with X³ = X - 1.
#![tactic(auto)]

pub mod base;
pub mod extension;
