//! Checks that labels are the minimum cut of a network with the smallest inside, by a flow whose value is their cost.
//!
//! Verified: `check_flow` returns the first fault, or none; each network has one smallest minimum cut (`exactly_one_is_least_inside`).
//!
//! Nothing is known of labels and flow but that there is one label and one amount a node and one amount an arc. A valid
//! flow whose value is the cost of admissible labels shows that no labels cost less (Ford and Fulkerson 1956). The first
//! fault is named, with its node or arc and its numbers.
//!
//! `verdict` holds the answers, `limits` finds fixed nodes inside and amounts over their limits, `balance` finds nodes at which
//! a flow is not balanced, `checking` puts them together, and `laws` has theorems. The crate depends on
//! `flow_net` and `max_flow` (what enters and leaves each node, and the minimum cut with the smallest inside).
#![tactic(auto)]

mod balance;
mod checking;
mod laws;
mod limits;
#[cfg(test)]
mod tests;
mod verdict;

pub use checking::check_flow;
pub use laws::{exactly_one_is_least_inside, verdicts_are_unique};
pub use verdict::Verdict;

/// The error of a call for which there was no memory.
pub type NoMemory = std::alloc::AllocError;
