//! Theorems on walks through the cells, on places near a vertex, and on lines of sight. A sight goes from the symbolically
//! perturbed place of a scanner to a vertex; a walk along it starts at the vertex.

ghost use Rattle.cell_laws.specs.RowLaws.{RowSightLaw};
ghost use Rattle.cell_laws.specs.WalkLaws.{StepLaw, NearLaw, SpreadLaw, ScannerLaw, VertexSightLaw, SightLaw, PathLaw};

/// States that a visibility walk ends (Devillers, Pion and Teillaud 2002). A step crosses any facet that has the goal on its
/// negative side. For a place of the box there is an adjacent cell, fewer cells are higher over the goal than that one, and a
/// cell none of whose facets has the goal on its negative side contains it.
pub fn step_law()
    ensures { StepLaw }
{}

/// States that the perturbed place of a scanner, and the places near a data point on the way to it and away from it, are in the
/// box. The sign of a side of these is that of the point's own side and, if that is zero, that of the scanner's or its
/// opposite. So signs decide on which side of a facet a sight starts.
pub fn near_law()
    ensures { NearLaw }
{}

/// States that a perturbed scanner is in the plane of no three points of the box unless they are collinear. So its sign is zero
/// only for a degenerate facet.
pub fn spread_law()
    ensures { SpreadLaw }
{}

/// States that exactly one cell contains a perturbed scanner.
pub fn scanner_law()
    ensures { ScannerLaw }
{}

/// States that for each data point that is in and each scanner exactly one cell at the point is towards the scanner, and
/// exactly one is behind the sight: the cells that contain the places near the point. So a walk has one cell to start in.
pub fn vertex_sight_law()
    ensures { VertexSightLaw }
{}

/// States the same of rows: in the list of all cells exactly one is the scanner's, one is towards it, one is behind the sight.
pub fn row_sight_law()
    ensures { RowSightLaw }
{}

/// States that a sight leaves a cell on it through exactly one facet, or the cell is the scanner's. It enters through at most
/// one, and it never meets an edge or a vertex.
pub fn sight_law()
    ensures { SightLaw }
{}

/// States that a sight has one path through linked cells, from the cell towards the scanner at its vertex to the scanner's
/// cell. Its crossings are exactly the facets that the sight crosses, each once, each nearer the vertex than every later one.
pub fn path_law()
    ensures { PathLaw }
{}
