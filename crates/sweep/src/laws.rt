//! A theorem over the definitions, as the contract of a call that does nothing.

ghost use Rattle.sweep.specs.FreshBuilds.{FreshBuildLaw};

/// The surface and the cost of a sweep are those of a fresh build at its weights: for any mesh and certificate that solve a
/// scan, no other mesh is the surface of its minimum cut with the smallest inside, and no other number is its cost.
pub fn a_sweep_is_as_a_fresh_build()
    ensures { FreshBuildLaw }
{}
