//! Theorems on flips, as contracts of functions that do nothing.

ghost use Rattle.mesh_flips.specs.Laws.{FlipsKeepExcess, FlipsKeepTriangles, FlipsKeepCount, FlipsKeepClosed};

/// After flips the mesh has as many faces, and each is a triangle among the same points.
pub fn flips_keep_faces()
    ensures count { FlipsKeepCount }
    ensures triangles { FlipsKeepTriangles }
{}

/// For each directed edge, how much more often it occurs than its reverse stays as it was. So a closed mesh stays closed.
pub fn flips_keep_closed()
    ensures excess { FlipsKeepExcess }
    ensures closed { FlipsKeepClosed }
{}
