//! Tests of the commands over a host in memory, for what no contract states and the built program cannot show: that no call
//! follows a failed one, that the limit of a file is exact, and a mesh in the format of a caller's own writer. And tests of
//! texts: the printed rows of generated scans, compared with those of another program, and the example of `ply_rows`.
//!
//! Verified: nothing else: the crate has only tests.
//!
//! The crate has only tests. They call public functions of `recon_cmd` and the crates below it, so that checking them does not
//! verify those functions again. What the commands print and write is tested with the built program, in `tools/tests`.
#![tactic(auto)]

#[cfg(test)]
mod tests;
