//! Theorems for stores of cells: which vertices a store's points are, and its cells as sorted vertex tuples.

ghost use Rattle.cell_laws.specs.RowLaws.{ListLaw};
ghost use Rattle.cell_laws.specs.StoredLaws.{AllLaw, StoredLaw, RowLaw};

/// States that the corners of the box and distinct data points, all in, are vertices of the box, as the other theorems suppose.
pub fn all_law()
    ensures { AllLaw }
{}

/// States that the corners and points, in if they have a flag, are vertices of the box. One more flag is one more vertex, and
/// with all flags set the cells are those of all vertices.
pub fn stored_law()
    ensures { StoredLaw }
{}

/// States that each name of a list of all cells has one sorted vertex tuple, and that each tuple of a cell is that of one name.
pub fn row_law()
    ensures { RowLaw }
{}

/// States that the rows of the list of all cells are all cells, each once. So what holds of cells by name holds of rows.
pub fn list_law()
    ensures { ListLaw }
{}
