//! Traverses linked Delaunay cells along lines of sight: from the cell at a vertex that is towards a scanner, cell by cell, to
//! the cell that contains the symbolically perturbed scanner.
//!
//! Verified: `walk` and `next` visit exactly the facets that a line of sight crosses, each once, from the point to the scanner.
//!
//! A scanner is perturbed so that no line of sight meets an edge except at its vertex (`geo_sign`), so the line leaves each
//! cell through the interior of one facet. The line enters a cell through a facet, and its sides of the planes through the
//! edges to the fourth vertex determine the one facet through which it can leave, as in walks along a line by Devillers, Pion
//! and Teillaud (2002). It leaves there if the scanner is beyond that facet; else the scanner is in the cell. A step loads one
//! cell and computes three signs, or two if the scanner's cell is known. No walk allocates memory, and none fails.
#![tactic(auto)]

mod along;
mod exit;
mod image;

pub use along::{Crossing, SightWalk, walk, walk_into};
