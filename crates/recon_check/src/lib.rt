//! Checks whether a mesh and a certificate are the best surface of a scan and its certificate of optimality.
//!
//! Verified: `check_all` accepts exactly the texts of a solution (`IsAccepted`), else it returns the first reason (`IsAnswer`).
//!
//! Neither text is trusted. The check computes the scan's cells and visibility weights again and compares the labels and the flow of the
//! certificate with them: a valid flow whose value is the cost of admissible labels shows that no labels cost less. A reader of the answer
//! need not trust the program that made the two texts. The check tests rows by the numbers of cells and sides in the store, and builds no
//! list of arcs.
//!
//! | File | What it does |
//! |---|---|
//! | `answer` | the answers and the reasons |
//! | `counts` | compares the numbers that a certificate states with the scan's |
//! | `stamps` | compares the fingerprint of a certificate with that of the run |
//! | `lookup`, `order`, `stated` | find the cells and sides that rows name |
//! | `limits`, `balance` | find rows that state too much, and cells at which the flow is not conserved |
//! | `faults` | returns these and the remaining faults as reasons over cells and facets |
//! | `texts` | finds the first difference of two texts |
//! | `checking` | runs these in order; `stop` is the error on the way |
//! | `laws` | the theorem about all answers |
//!
//! The crate depends on `cert_text` (certificates), `solution` (the definition of a solution, points, sights,
//! cells and weights), `cell_net` (their network), `max_flow` (totals at cells, and the minimum cut with the smallest inside) and
//! `surface` (the mesh of labels).
#![tactic(auto)]

mod answer;
mod balance;
mod checking;
mod counts;
mod faults;
mod laws;
mod limits;
mod lookup;
mod order;
mod stamps;
mod stated;
mod stop;
mod texts;

pub use answer::{Answer, Reason, Which};
pub use checking::{
    Checked, CheckedTexts, Confirmed, OwnedTexts, check_all, check_all_watched, check_owned,
};
pub use laws::answers_are_unique;
use std::alloc::AllocError;

/// Out of memory: the one error that any input may cause.
pub type NoMemory = AllocError;
