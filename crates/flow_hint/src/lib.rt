//! Heuristic maximum flow, with levels that prove it. It usually is maximal, but only the lengths of its lists are verified:
//! callers must validate it.
//!
//! Verified: `find_hint` and `find_hint_on` are safe, terminate and return lists of the right lengths; callers validate the flow.
//! Nothing else is stated.
//!
//! It starts with every arc full, as far as possible, and moves the resulting excess into sinks with residual capacity: first
//! along a forest that grows from the nodes with excess (half of the two-tree algorithm of Boykov and Kolmogorov 2004), for a
//! bounded time, and then by levels, the node nearest to a sink first (Goldberg and Tarjan 1988). Flow that reaches no sink
//! goes back to the fixed nodes. The amounts before that can be kept, and a hint at larger capacities resumes from them.
//!
//! `survey` adds up capacities, `wiring` lists the arcs that leave a node, `amounts` stores numbers in few bits, `preflow`
//! holds the amounts and excesses, `kept` resumes from an earlier preflow, `forest` and `rounds` move excess into sinks,
//! `refund` computes what can go back, `sweep` sends it back, and `hinting` combines them. `passed` adds hints to a progress callback ([`Hinting`]), which is how calls of `max_flow`
//! and those above take them. The crate depends on `flow_net`, and reports its progress to a callback of `watch`.
#![tactic(auto)]

mod amounts;
mod forest;
mod hinting;
mod kept;
mod passed;
mod preflow;
mod refund;
mod rounds;
mod survey;
mod sweep;
mod wiring;

pub use flow_net::{Hint, Levels};
pub use hinting::{find_hint, find_hint_above, find_hint_on};
pub use kept::KeptPreflow;
pub use passed::Hinting;

/// The error of a call that ran out of memory.
pub type NoMemory = std::alloc::AllocError;
