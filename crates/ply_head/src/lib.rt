//! Reads the header of a PLY file, and prints it in one canonical spelling.
//!
//! Verified: `read_head` accepts exactly the grammar of PLY headers; what `push_head` prints is read back.
//!
//! The format is Greg Turk's PLY. A header is a sequence of lines, each ended by LF or CR LF. The first is `ply`, the next that
//! is not skipped is `format KIND 1.0`, and the last is `end_header`. Between them are the elements, each an `element NAME
//! COUNT` line with the `property` lines of its rows after it. Lines that begin with `comment` or `obj_info`, and blank lines,
//! are skipped. Lines are counted from 1. A line has at most 1,000 bytes without its end, and a header at most 1,000 lines.
//!
//! The body begins with the byte after the header; this crate does not read it.
//!
//! A header line takes memory in proportion to its bytes, whatever count it states. The reader examines each byte of the header
//! a fixed number of times, except that a name is compared with the names before it, which are fewer than 1,000.
//!
//! The crate depends on `num_text` (printed numbers) and `thiserror`.
#![tactic(auto)]

mod header;
mod laws;
mod lines;
mod print;
mod read;
mod refusal;
mod statement;
mod steps;
mod words;

pub use header::{
    Element, Elements, Endian, Header, Kind, Name, NoMemory, Properties, Property, Scalar, Shape,
};
pub use laws::{printed_headers_are_read, texts_with_headers_are_read};
pub use print::push_head;
pub use read::read_head;
pub use refusal::HeadRefusal;
