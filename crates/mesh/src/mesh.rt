//! The type of meshes. Depends on the points of `geo_sign`.

use geo_sign::Point;
use std::alloc::AllocError;

/// Out of memory.
pub type NoMemory = AllocError;

/// A triangle mesh: points in scaled units, and faces as indices into `points`, counted from 0.
///
/// It is *valid* if there are at most 2^32 - 1 points and at most 2^32 - 1 faces, and each face has three distinct indices of
/// `points`, the smallest first. The order of a face's indices gives the outside; a cyclic rotation is the same face, so the
/// smallest can come first.
#[derive(Debug, Drop)]
pub struct Mesh {
    /// The vertices, which may repeat.
    pub points: Vec<Point>,
    /// The triangles, each by the indices of its vertices.
    pub faces: Vec<[u32; 3]>,
}
