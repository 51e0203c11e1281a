//! What is counted of cells and their sides.

/// What a network is made from, by the numbers that cells have in the store.
#[derive(Clone, Copy, Debug)]
pub struct StoreCounts<'a> {
    /// At 4 * id + side what the sights weigh together that cross the directed facet of a side.
    pub crossed: &'a [u32],
    /// At id what the sights weigh together that the cell is behind.
    pub behind: &'a [u32],
    /// At id whether the cell has a corner or a scanner.
    pub fixed: &'a [bool],
}
