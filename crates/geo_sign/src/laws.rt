//! Theorems on the definitions, as the contracts of calls that do nothing.

ghost use Rattle.std.specs.Prelude.{◌≡◌};
ghost use Rattle.geo_sign.specs.RisingLaws.{RisingLaw, CellListLaw};
ghost use Rattle.geo_sign.specs.FacetLaws.{SidesAreRotated, SidesAreTurned, CrossingsAreRotated, FacetsAreRotated};
ghost use Rattle.geo_sign.specs.RowLaws.{RowsExist, RowsAreWritten, RowsAreKept, RowsTell, CellsAreRows, WrittenFacets};
ghost use Rattle.geo_sign.specs.DeterminantLaws.{CramerLaw, OrientationIsSum, PointIsSum, PowerIsSum};
ghost use Rattle.geo_sign.specs.SizeLaws.{NormalsAreSmall, PowersAreSmall};
ghost use Rattle.geo_sign.specs.declared.point.TheConstants.{BOX_LIMIT, CORNERS, DATA_LIMIT};

/// States that an ascending list is determined by its members. So the cells of given vertices have one list.
pub fn rising_list_law()
    ensures rising { RisingLaw }
    ensures cells { CellListLaw }
{}

/// States that a directed facet may start at any of its vertices: sides and crossings stay. In the other direction each side is
/// the opposite number. The facets of a tetrahedron reordered by an even permutation are its facets, rotated. For callers that
/// meet one facet from two cells.
pub fn rotated_facet_law()
    ensures sides { SidesAreRotated }
    ensures turned { SidesAreTurned }
    ensures crossings { CrossingsAreRotated }
    ensures facets { FacetsAreRotated }
{}

/// States that each positively oriented tetrahedron has one row, its sorted vertex tuple. The row determines it up to an even
/// permutation, cells in any vertex order are ascending cells by their rows, and the facets of what is written of a row have
/// their smallest number first. For callers that name a cell by its sorted vertex tuple.
pub fn row_law()
    ensures exist { RowsExist }
    ensures written { RowsAreWritten }
    ensures kept { RowsAreKept }
    ensures tell { RowsTell }
    ensures cells { CellsAreRows }
    ensures least_first { WrittenFacets }
{}

/// States that four vectors have one linear relation, whose weights are determinants of three of them. So the orientation of
/// four points is the sum of the four orientations in which a fifth point stands in the place of one, that fifth point is their
/// weighted sum, and the plain power is the opposite of the sum of these four, each times the squared distance from the fifth
/// point to that vertex. For callers that compute a power or an orientation by other formulas than the definition's.
pub fn determinant_law()
    ensures cramer { CramerLaw }
    ensures orientation { OrientationIsSum }
    ensures point { PointIsSum }
    ensures power { PowerIsSum }
{}

/// Where the walls of the box are, and the outermost data points, and how many corners it has. A component of a facet's normal
/// in the box is at most 2^49, and the plain power of five points of the box at most 72 * 2^120, so both fit the integers that
/// they are computed in.
pub fn size_law()
    ensures walls { BOX_LIMIT ≡ 8388608 }
    ensures data { DATA_LIMIT ≡ 2097151 }
    ensures corners { CORNERS ≡ 8 }
    ensures normals { NormalsAreSmall }
    ensures powers { PowersAreSmall }
{}
