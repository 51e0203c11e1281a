//! Edges of closed meshes: balanced directed edges, half edges with their twins, and umbrellas.
//!
//! Verified: `first_unbalanced` returns the first edge unlike its reverse; `pair` the twins of a closed mesh's half edges.
//!
//! A mesh is closed where each directed edge occurs as often as its reverse (`IsBalanced`). [`first_unbalanced`] finds the first
//! edge for which that fails, in the order of vertex indices, by two sorted lists. Slices and flips of edges are defined by the same
//! edges.
//!
//! Half edge `3 f + k` is side `k` of face `f`, from corner `k` to the next. [`pair`] gives each half edge a twin, which runs the other
//! way along the same edge. Where more than two faces meet in an edge, the two that bound one wedge of the solid are paired, so that
//! sheets which touch in an edge are distinct. The twins are found by a search without a contract and then verified in one pass
//! ([`are_twins`]). That a paired mesh is closed is a theorem ([`paired_meshes_are_closed`]).
//!
//! If two wedges are connected around both ends of the edge, [`divide_umbrellas`] pairs the two faces between them instead, so that
//! copies of vertices separate the pairs. It always succeeds.
//!
//! [`DisjointSets`] merges sets of numbers, such as faces that are connected: each number has a parent in its set, the smallest has
//! itself, and paths are shortened as they are followed (R. E. Tarjan, "Efficiency of a good but not linear set union algorithm",
//! Journal of the ACM 22, 1975). `AreSoMany` says that a number counts the things with a property, each once.
//!
//! It depends on `mesh` (meshes) and `geo_sign` (exact orientations).
#![tactic(auto)]

mod balance;
mod counting;
mod forest;
mod laws;
mod matching;
mod pairing;
mod pairs;
mod rotation;
mod search;
mod sets;
mod twins;
mod umbrellas;
mod walk;
mod wings;

pub use balance::{UnbalancedEdge, first_unbalanced};
pub use counting::next_count;
pub use laws::paired_meshes_are_closed;
pub use mesh::{Mesh, NoMemory};
pub use pairing::{PairingError, pair};
pub use pairs::Pair;
pub use rotation::{ahead, around};
pub use search::find_twins;
pub use sets::DisjointSets;
pub use twins::{are_twins, behind, start};
pub use umbrellas::{Umbrellas, divide_umbrellas};
