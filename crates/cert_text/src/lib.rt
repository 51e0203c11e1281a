//! The text format of certificates of optimality.
//!
//! Verified: `push_cert`, `read_cert`: each certificate has one text, read back exactly (`certificate_texts_are_distinct`).
//!
//! The format is this project's own, in two versions: lines that state one number each, and
//! three lists of rows; the second version first identifies the scan. Each well-formed certificate has exactly one text, and
//! exactly these texts are accepted; any other text gives its first error in line order.
//!
//! The crate depends on `certificate` (certificates), on `line_text` (numbers in lines, printed and read), on `mesh_ply` (the line
//! of a point) and on `hex` (the digits of a digest).
#![tactic(auto)]

mod digits;
mod fields;
mod laws;
mod print;
mod read;
mod refusal;
mod row;
mod stamp_print;
mod stamp_read;
mod words;

pub use certificate::{Certificate, FlowRow, NoMemory, SinkRow, Stamp};
pub use digits::{digest_of, digits_of};
pub use laws::certificate_texts_are_distinct;
pub use print::push_cert;
pub use read::read_cert;
pub use refusal::CertRefusal;
pub use row::Row;
