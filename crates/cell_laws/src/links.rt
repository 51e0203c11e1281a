//! Theorems on linked cells of any store: a list of live names, the vertices of each name, and its neighbor at each side. They
//! suppose that neighbors have the opposite facet, that only sides on walls have no neighbor and that no directed facet occurs
//! twice (`AreLinked`), and most of them that each name is a cell (`AreCells`).

ghost use Rattle.cell_laws.specs.ClosedLaws.{ClosedLaw};
ghost use Rattle.cell_laws.specs.LinkLaws.{LinkedLaw, FoundLaw, CavityLaw, RimLaw};

/// States that linked names, if each is a cell, are all cells, each once. So a store that keeps its links has all cells.
pub fn linked_law()
    ensures { LinkedLaw }
{}

/// States that the cell in which a new vertex lies is in conflict with it. So the search for conflicts starts there.
pub fn found_law()
    ensures { FoundLaw }
{}

/// States that a search over the links from one cell in conflict, which goes on at each neighbor in conflict, marks exactly the
/// cells in conflict: the others are clear of the new vertex.
pub fn cavity_law()
    ensures { CavityLaw }
{}

/// States how the boundary of the conflict region is read off the links: its facets are those of cells in conflict whose
/// neighbor is missing or clear, and there are no others.
pub fn rim_law()
    ensures { RimLaw }
{}

/// States that the facets between cells outside and inside are closed: if no cell with a corner is inside, each directed edge
/// occurs in the facets of outside cells with an adjacent inside cell as often as its reverse. So each such surface is closed.
pub fn closed_law()
    ensures { ClosedLaw }
{}
