//! Lines of whole numbers, as in the mesh format and the certificate format.
//!
//! Verified: `push_number`, `number_first` print and read lines of integers exactly, else return the first error in line order.
//!
//! A number is decimal without leading zeros and ends with one byte: a space within a line, a line feed at the line's end. The
//! rows of a list are compared lexicographically. A text is read line by line, and rejected at the first line that is
//! truncated, invalid or out of order, with that line's number ([`LineRefusal`]).
//!
//! The crate depends on `num_text`, which prints the numbers, and on `geo_sign` for the order of rows.
#![tactic(auto)]

mod digits;
mod facet;
mod lines;
mod print;
mod read;
mod refusal;

pub use facet::{facet_first, pair_first, vertex_first};
pub use lines::{number_line, word_line};
pub use print::{NoMemory, push_counted, push_number, push_signed};
pub use read::{
    behind, counted_within, cut_at, number_first, number_of, number_within, signed_first,
};
pub use refusal::{LineRefusal, refusal_of};
