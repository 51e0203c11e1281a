//! What is demanded of a finished mesh, and what was found.

use face_near::Weights;
use mesh_crossings::CrossingCounts;
use mesh_edges::UnbalancedEdge;

/// What is demanded of a finished mesh, other than that it is closed.
#[derive(Clone, Copy, Debug, PartialEq, Eq)]
pub struct Demands {
    /// Whether each edge has to have two faces, and the faces around each vertex to be one cycle.
    pub manifold: bool,
    /// How many units of the finished mesh one unit of the mesh before has.
    pub fine: u32,
    /// How far a vertex may be from the nearest one of the mesh before, in units of that mesh.
    pub within: u32,
}

/// A corner for which no face is shown to be near enough.
#[derive(Clone, Copy, Debug, PartialEq, Eq)]
pub struct Unreached {
    /// Its number.
    pub vertex: u32,
    /// Whether it is shown to be too far from each face.
    pub is_far: bool,
}

/// A face that is not shown to be near another mesh at each of its points.
#[derive(Clone, Copy, Debug, PartialEq, Eq)]
pub struct Uncovered {
    /// Its number.
    pub face: usize,
    /// How often its corners count in a point that is shown to be too far from each face of the other mesh, if one is found.
    pub far: Option<Weights>,
}

/// The first demand that a mesh does not keep.
#[derive(Clone, Copy, Debug, PartialEq, Eq)]
pub enum Fault {
    /// It is not closed: this is its smallest edge that occurs another number of times than its reverse.
    Unbalanced(UnbalancedEdge),
    /// Some edge has other than two faces, or the faces around some vertex are not one cycle.
    NonManifold {
        /// How many edges have other than two faces, in either direction.
        edges: usize,
        /// At how many vertices the faces are not one cycle.
        vertices: usize,
    },
    /// The first vertex that is too far from each vertex of the mesh before.
    FarVertex(usize),
    /// The first corner of the mesh before for which no face is shown to be near enough.
    UnreachedVertex(Unreached),
    /// The first face of the mesh before that is not shown to be near the mesh at each of its points.
    UncoveredOriginal(Uncovered),
    /// The first face of the mesh that is not shown to be near the mesh before at each of its points.
    UncoveredFace(Uncovered),
}

/// What was found.
#[derive(Clone, Copy, Debug, PartialEq, Eq)]
pub enum Verdict {
    /// The mesh keeps all demands. How many pairs of its faces cross is said too.
    Keeps(CrossingCounts),
    /// It does not.
    Breaks(Fault),
}
