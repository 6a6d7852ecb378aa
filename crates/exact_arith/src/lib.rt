//! Vectors of whole numbers, and tools to prove equations and inequalities of such numbers, and that computed numbers
//! fit 64 or 128 bits.
//!
//! The crate has no code: it is its `specs/` and `proofs/`, which other crates import.
//!   Space     vectors, their sums and products, and triangles
//!   Ring      an equation of polynomials, by computing
//!   Triples   vectors of three polynomials
//!   Order     an inequality of polynomials, by a certificate
//!   Ranges    the value and the size of what integer code computes
#![tactic(auto)]
