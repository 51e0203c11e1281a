//! Theorems on the insertion of a vertex (Bowyer 1981 and Watson 1981): the cells in conflict with it are removed, and each
//! facet on the boundary of the conflict region gets a cell with the vertex as apex. They suppose vertices of the box and a
//! data point that is not in yet (`IsNew`).

ghost use Rattle.cell_laws.specs.InsertionLaws.{FanLaw, StayLaw, VertexLaw, FloodLaw, EdgeLaw};

/// States which cells are new: four vertices with the new one as apex are a cell exactly if the other three are a facet on the
/// boundary of the conflict region. The new vertex is on the positive side of each of these facets, each directed edge occurs
/// in one of them, and its reverse too. If any cell is in conflict, there is such a facet.
pub fn fan_law()
    ensures { FanLaw }
{}

/// States which cells stay: four vertices without the new one are a cell exactly if they were one and the new vertex is not in
/// conflict with them.
pub fn stay_law()
    ensures { StayLaw }
{}

/// States that no vertex is lost: each is in a facet on the boundary of the conflict region, or in a cell that stays. So a
/// store can keep an incident cell for each vertex.
pub fn vertex_law()
    ensures { VertexLaw }
{}

/// States that the cells in conflict are connected: a set of them that no step between adjacent cells in conflict leaves is all
/// of them. Otherwise the highest of these and the highest of the others over a place near the new vertex would both contain
/// that place. So a search from one cell in conflict finds all.
pub fn flood_law()
    ensures { FloodLaw }
{}

/// States that in a list of the boundary's facets, each once, each directed edge occurs in one facet, and its reverse in one.
/// So each edge joins two new cells.
pub fn edge_law()
    ensures { EdgeLaw }
{}
