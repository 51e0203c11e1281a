//! Where a finished or simplified mesh comes from.

use finish_options::Made;
use mesh::Mesh;

/// What was done to a mesh, and to which.
#[derive(Clone, Copy, Debug, PartialEq, Eq)]
pub struct Provenance {
    /// What was done, with its options.
    pub made: Made,
    /// How many units of this mesh one unit of the mesh before has: 1 without smoothing, and after simplifying.
    pub fine: u32,
    /// The SHA-256 of the file of the mesh before.
    pub digest: [u8; 32],
}

/// A mesh, and where it comes from if its file states that.
#[derive(Drop)]
pub struct AnnotatedMesh {
    /// The mesh.
    pub mesh: Mesh,
    /// Where it comes from.
    pub provenance: Option<Provenance>,
}
