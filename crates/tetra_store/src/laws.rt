//! A theorem over the definitions, as the contract of a call that does nothing.

ghost use Rattle.tetra_store.specs.Box.{CornerLaw};

/// States that with the corners alone in, the six cells of the box are exactly the cells, at every exponent of the symbolic
/// perturbation.
pub fn corner_law()
    ensures { CornerLaw }
{}
