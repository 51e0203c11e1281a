//! The options with which a mesh is finished or simplified.

/// How many steps of smoothing there are at most.
pub const MOST_STEPS: u32 = 100;

/// How far points move at most: as far as the box reaches from its middle.
pub const FARTHEST: u32 = 8_388_608;

/// What is done to a mesh, in this order.
#[derive(Clone, Copy, Debug, PartialEq, Eq)]
pub struct FinishOptions {
    /// How many of the largest pieces are kept at most (default: all).
    pub pieces: Option<u32>,
    /// Vertices are split, so that each edge has two faces and the faces around each vertex are one cycle (default: false).
    pub manifold: bool,
    /// Edges are flipped where the angles between faces fall (default: true).
    pub flips: bool,
    /// Vertices move so that neighboring faces agree on their directions, and after each step edges are flipped, if edges are flipped at
    /// all (default: none).
    pub smoothing: Option<SmoothOptions>,
}

/// How a mesh is smoothed.
#[derive(Clone, Copy, Debug, PartialEq, Eq)]
pub struct SmoothOptions {
    /// How many steps there are.
    pub steps: u32,
    /// How far a vertex may be from where it was, in units of the mesh.
    pub within: u32,
}

/// How a mesh is simplified.
#[derive(Clone, Copy, Debug, PartialEq, Eq)]
pub struct SimplifyOptions {
    /// How far a corner of the mesh may be from the nearest face, in units of the mesh.
    pub within: u32,
    /// How many faces are left at least; 0 for as few as are found.
    pub faces: u32,
    /// Each point of either mesh has to be that near to the other, not corners alone (default: false).
    pub surface: bool,
    /// Vertices move to where they suit the faces around them (default: false).
    pub moves: bool,
}

/// What was done to a mesh.
#[derive(Clone, Copy, Debug, PartialEq, Eq)]
pub enum Made {
    /// It was finished.
    Finish(FinishOptions),
    /// It was simplified.
    Simplify(SimplifyOptions),
}
