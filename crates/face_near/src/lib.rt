//! Points near a face: an exact test by whole weights of the corners, and the weights of the nearest point.
//!
//! Verified: `is_near` says yes only if the point of a face with the given whole weights is within a distance of a point.
//!
//! The points of a triangle are the weighted means of its corners. [`is_near`] tests for given whole weights whether the mean is within a
//! distance of a point, without rounding. [`nearest_on`] finds the point of the triangle that is nearest, in floating
//! point, and [`weights_of`] proposes its weights. No clause depends on them, since they are tested.
//!
//! It depends on `geo_sign` (points), `mesh` (the point of a vertex), `triangles` (weighted sums of corners) and `mesh_flips`
//! (vectors in floating point).
#![tactic(auto)]

mod exact;
mod nearest;

pub use exact::{Reach, Weights, is_near};
pub use nearest::{Corners, Nearest, nearest_on, spot, weights_of};
