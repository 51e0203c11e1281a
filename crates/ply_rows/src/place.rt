//! Positions of a property and a row among the rows, and the bytes of a property in the body.

/// A property of a row. All three are counted from 0, in the header's order.
#[derive(Clone, Copy, Debug, PartialEq, Eq)]
pub struct Place {
    /// The element, among the elements of the header.
    pub element: u32,
    /// The row, among the rows of the element.
    pub row: u32,
    /// The property, among the properties of the element.
    pub property: u32,
}

/// A row. Both are counted from 0, in the header's order.
#[derive(Clone, Copy, Debug, PartialEq, Eq)]
pub struct RowAt {
    /// The element, among the elements of the header.
    pub element: u32,
    /// The row, among the rows of the element.
    pub row: u32,
}

/// The bytes of one property of a row in the body: those of its value, or those of its list from the first item to the last.
#[derive(Clone, Copy, Debug, PartialEq, Eq)]
pub struct Field {
    /// The offset of the first byte in the body. It is 0 for a list without items.
    pub place: usize,
    /// The number of bytes. In a text, a list's bytes include the white space between its items. It is 0 for a list without
    /// items.
    pub size: usize,
    /// The number of values: 1 for a single value.
    pub items: u32,
}
