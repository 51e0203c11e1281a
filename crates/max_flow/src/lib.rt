//! Computes a maximum flow through a network, and the minimum cut with the smallest inside.
//!
//! Verified: `solve` returns a maximum flow; `least_inside` and `minimum_cut` return the minimum cut with the smallest inside.
//! `resume` completes a valid flow to a maximum flow. The cost of the cut is the value of the flow. `is_valid_flow`
//! returns exactly whether a flow is valid.
//!
//! The flow begins with a hint, if the caller passes in a value that gives hints (`FlowHints` of `flow_net`). The hint is validated:
//! if it is valid, and its levels show from which nodes a sink with residual capacity can be reached and that no fixed node is among
//! them, it is maximal (Ford and Fulkerson 1956). Else rounds continue from it, or from zero if it is not valid. A round finds all nodes from which a sink with residual capacity can be reached in
//! the residual network, with their levels, and augments along paths that lead down by levels until none is left (Dinic 1970).
//! If no fixed node is found, the flow is maximal.
//!
//! The inside of this cut has the nodes from which a sink with residual capacity can still be reached; each minimum cut has
//! them inside. Labatut, Pons and Keriven (2007) cut such a network of cells.
//!
//! `residual` defines the residual arcs, `incidence` finds those that enter a node, `searches` searches backwards from the
//! sinks with residual capacity, `levels` validates levels of a hint or of `spread` instead, `paths` augments along paths, `phases` does
//! so down the levels of a search, `solving` has the calls that depend on all these, and `resuming` those that resume from a
//! valid flow. `balance` adds up what enters and leaves each node, which a check that names a fault takes too, and `validity` tests
//! whether amounts are a valid flow. The crate depends on `flow_net`, and reports its progress to a callback of `watch`.
//!
//! # Example
//!
//! The flow from a fixed node through a near one into the sink of a far one, in a network of `flow_net::NetBuilder`. The arc
//! between the two free nodes is the bottleneck, and only the far node is inside:
//!
//! ```rust
//! let mut builder = NetBuilder::new(rt.alloc());
//! let outside = builder.add_fixed()?;
//! let near = builder.add_free(0)?;
//! let far = builder.add_free(9)?;
//! builder.feed(outside, near, 5)?;
//! builder.join(near, far, 3, 0)?;
//! let net = builder.build();
//! let flow = solve(rt.alloc(), &net)?;
//! assert_eq!(rt; value(&net, &flow), 3);
//! let labels = least_inside(rt.alloc(), &net, &flow)?;
//! assert_eq!(rt; labels.inside.as_slice(), [false, false, true].as_slice());
//! Ok(())
//! ```
#![tactic(auto)]

mod balance;
mod incidence;
mod levels;
mod paths;
mod phases;
mod residual;
mod resuming;
mod searches;
mod solving;
mod spread;
mod validity;

pub use balance::{Totals, add_up};
pub use resuming::{minimum_cut_above, resume};
pub use solving::{least_inside, minimum_cut, minimum_cut_and_preflow, solve};
pub use spread::find_levels;
pub use validity::{is_balanced, is_valid_flow};

/// The error of a call that ran out of memory.
pub type NoMemory = std::alloc::AllocError;
