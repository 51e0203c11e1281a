//! Theorems on the cells over the vertices that are in, whatever these are: Delaunay tetrahedra by the empty-sphere definition
//! under symbolic perturbation. They suppose only that the corners of the box are in place and in, that the other vertices are
//! distinct data points, and that heights are those of the perturbation (`IsBoxed`).

ghost use Rattle.cell_laws.specs.CellLaws.{ThreeTermsLaw, GenericLaw, EnvelopeLaw, AcrossLaw, FacetLaw, PlaceLaw, OneLaw};
ghost use Rattle.cell_laws.specs.EnvelopeLaws.{StrictEnvelopeLaw, ThreeLiftsLaw};
ghost use Rattle.cell_laws.specs.TieLaws.{TieLaw};

/// States how the powers of a fifth vertex at two tetrahedra that share a facet differ, each multiplied by the orientation of
/// the other: by the power of one apex at the other tetrahedron times the side of the facet on which the fifth vertex lies. It
/// holds for any five points at any heights. Nearly all other theorems are inequalities that follow from it.
pub fn three_terms_law()
    ensures { ThreeTermsLaw }
{}

/// States the same of the planes of the two lifted tetrahedra over a place: they differ by the power of one apex at the other
/// tetrahedron times the side of the facet on which the place lies. It compares the heights of two neighbors, as a walk does.
pub fn three_lifts_law()
    ensures { ThreeLiftsLaw }
{}

/// States that the power of a vertex at four positively oriented others is never zero, and that its sign is the same at the
/// heights of every exponent above the five numbers. So no test of conflict is left open, and cells do not depend on the number
/// of vertices. The powers of the base are so far apart that the greatest vertex number with a nonzero coefficient decides.
pub fn tie_law()
    ensures { TieLaw }
{}

/// States that no five vertices lie on one sphere: the power of a vertex at a tetrahedron is zero only if it is one of the
/// four. So the case of sign zero is that of a cell's own vertices.
pub fn generic_law()
    ensures { GenericLaw }
{}

/// States that the lifted cells are an upper envelope: over a place, the plane of the cell that contains the place is at least
/// as high as that of each other cell. The lifting map takes the empty sphere to a supporting plane.
pub fn envelope_law()
    ensures { EnvelopeLaw }
{}

/// States when the envelope is strict: over a place, the plane of the cell that contains the place is above that of another
/// cell if the first has a vertex that the other lacks and the place is not in the plane of the opposite facet. So walks end.
pub fn strict_envelope_law()
    ensures { StrictEnvelopeLaw }
{}

/// States that each directed facet of a cell is on a wall of the box and has no adjacent cell, or is on none and has one.
pub fn across_law()
    ensures { AcrossLaw }
{}

/// States that at most one cell has a given directed facet, and that no two sides of a cell are one facet. So a facet names one
/// side of one cell.
pub fn facet_law()
    ensures { FacetLaw }
{}

/// States that cells cover the box: each place of it lies in a cell. So point location has an answer.
pub fn place_law()
    ensures { PlaceLaw }
{}

/// States that cells do not overlap: a place strictly inside one lies in no other. So point location has one answer.
pub fn one_law()
    ensures { OneLaw }
{}
