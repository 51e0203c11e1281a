//! Reads the rows of a PLY body, one after another.
//!
//! Verified: `next_row` of `Rows` returns exactly the next row, text or binary, or the error at its position.
//!
//! The format is Greg Turk's PLY. After the header come the rows of its elements, in the header's order, and each row has its
//! element's properties in order. An element without properties takes no bytes, and its rows are skipped.
//!
//! In an `ascii` body a token is a run of bytes other than white space (space, tab, CR and LF), and a line end is only white
//! space. A single value is one token. A list is a token that counts the items, and then the item tokens. In a binary body a
//! value has its type's size and the file's byte order. A list is its count and then its items, with nothing between.
//!
//! The reader borrows the body and copies nothing of it. It examines each byte a fixed number of times, and holds the fields of
//! one row at a time. A count of rows or items is never trusted: it takes no memory and no time before the rows or items are
//! read.
//!
//! The crate depends on `ply_head` (headers), `num_text` (the counts of lists in text), `byteorder` and `thiserror`.
//!
//! # Example
//!
//! Reads the numbers of the second property of each row; `ply_head::read_head` reads the header and `num_text::whole` a number:
//!
//! ```rust
//! let file =
//!     b"ply\nformat ascii 1.0\nelement vertex 2\nproperty int x\nproperty int y\nend_header\n3 4\n5 6\n";
//! let (head, start) = read_head(rt.alloc(), file)?;
//! let mut rows = Rows::new(&head, &file[start..]);
//! let mut fields = Vec::new(rt.alloc());
//! let mut heights = Vec::new(rt.alloc());
//! while let Some(_) = rows.next_row(&mut fields)? {
//!     if let Some(y) = fields.get(1) {
//!         heights.push(whole(rows.bytes(*y))?)?;
//!     }
//! }
//! assert_eq!(rt; heights.as_slice(), [4, 6].as_slice());
//! Ok(())
//! ```
#![tactic(auto)]

mod binary;
mod fields;
mod items;
mod laws;
mod place;
mod refusal;
mod rows;
mod text;
mod tokens;

pub use binary::{binary_whole, size};
pub use items::first_item;
pub use laws::bodies_with_rows_are_read;
pub use place::{Field, Place, RowAt};
pub use refusal::{NoMemory, RowRefusal};
pub use rows::Rows;
