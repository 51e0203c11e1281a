//! Points of the box and the exact signs of how they lie.
//!
//! Verified: `orient`, `in_sphere`, `side_of_scanner` return the exact sign of their polynomial, `orient_value` its value.
//! Polynomials that multiply out to the same sum have the same value everywhere (`identity_law`).
//!
//! All signs are exact: each is the sign of a polynomial with whole coefficients in whole coordinates, computed without rounding
//! in integers that hold its largest value. Nothing is filtered, scaled or perturbed in floating point.
//!
//! Orientation is right-handed. The orientation of a, b, c, d is positive where a, b, c turn counterclockwise as seen from d, which
//! is where d lies on the side of their plane to which the normal (b - a) x (c - a) points. Four points with a positive orientation
//! are positively oriented. A side of a facet a, b, c is positive in the same way, as seen from the place in question.
//!
//! | Sign | Polynomial | Degree | Bits |
//! |---|---|---|---|
//! | `orient` | six times the volume of a tetrahedron | 3 | 75 |
//! | `in_sphere` | the power of a point at four others | 5 | 127 |
//! | `side_of_scanner` | four signs of degree 3 and 2, the first that is not zero | 3 | 75 |
//!
//! `specs/` has what every crate above means by vertices, tetrahedra, cells and sights, and identities of polynomials, by which
//! the proofs multiply out. `laws` says what these meanings do not depend on: how a tetrahedron or a facet is written, and
//! vertices that are not in.
//!
//! # Example
//!
//! A tetrahedron positively oriented, and points in, on and outside the sphere through its vertices:
//!
//! ```rust
//! let a = Point::data(0, 0, 0).ok_or("a data point")?;
//! let b = Point::data(100, 0, 0).ok_or("a data point")?;
//! let c = Point::data(0, 100, 0).ok_or("a data point")?;
//! let d = Point::data(0, 0, 100).ok_or("a data point")?;
//! assert!(rt; orient(a, b, c, d).is_pos());
//! assert!(rt; orient(a, c, b, d).is_neg());
//!
//! let inside = Point::data(99, 99, 99).ok_or("a data point")?;
//! let on = Point::data(100, 100, 100).ok_or("a data point")?;
//! let outside = Point::data(101, 101, 101).ok_or("a data point")?;
//! assert!(rt; in_sphere(a, b, c, d, inside).is_neg());
//! assert_eq!(rt; in_sphere(a, b, c, d, on), Sign::Zero);
//! assert!(rt; in_sphere(a, b, c, d, outside).is_pos());
//! Ok(())
//! ```
#![tactic(auto)]

mod laws;
mod orientation;
mod point;
mod polynomial;
mod scanner;
mod sign;
mod sphere;
mod vector;

pub use laws::{determinant_law, rising_list_law, rotated_facet_law, row_law, size_law};
pub use orientation::{orient, orient_value};
pub use point::{BOX_LIMIT, CORNERS, DATA_LIMIT, POINT_LIMIT, Point, corner};
pub use polynomial::identity_law;
pub use scanner::side_of_scanner;
pub use sign::Sign;
pub use sphere::in_sphere;
pub use vector::Vector;
