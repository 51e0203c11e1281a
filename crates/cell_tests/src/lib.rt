//! Tests of cells, of networks over cells, and of flows: linked cells compared with brute-force oracles, hints that are maximum
//! flows, large networks that are solved in the time of a test, one call each of what the program does not call, and the
//! examples of `geo_sign` and `delaunay`.
//!
//! Verified: nothing else: the crate has only tests.
//!
//! The crate has only tests. They call public functions of the crates of cells and flows, so that checking them does not verify
//! those functions again. What a test asserts of one case is in a function of its own: a proof takes far longer if a function
//! creates values that are dropped, propagates errors and loops at once.
#![tactic(auto)]

#[cfg(test)]
mod tests;
