//! Meshes with their provenance: what was done to a mesh, and to which.
//!
//! Verified: `push_annotated`, `read_annotated`: a mesh with its provenance has one text, which is read back exactly.
//! The provenance is what was done with which options, the scale and the SHA-256 of the original. `read_annotated` also reads the texts of
//! `mesh_ply`, and returns the first error in line order of any other text.
//!
//! A finished or simplified mesh states in three comments of its header the options with which it was made, its scale and the SHA-256 of
//! the file it was made of ([`Provenance`]). The rest of its text is the printed form of `mesh_ply`. Each mesh has exactly one text with a given
//! provenance, and one without. [`read_annotated`] accepts exactly these; any other text gives its first error in line order.
//!
//! The crate depends on `finish_options` (the options of finishing), `mesh_ply` (meshes and their text), `line_text` (numbers in lines) and `cert_text` (the digits of a digest).
#![tactic(auto)]

mod laws;
mod made_read;
mod options_read;
mod print;
mod provenance;
mod read;
mod words;

pub use finish_options::{
    FARTHEST, FinishOptions, MOST_STEPS, Made, SimplifyOptions, SmoothOptions,
};
pub use laws::file_texts_are_distinct;
pub use mesh::NoMemory;
pub use print::push_annotated;
pub use provenance::{AnnotatedMesh, Provenance};
pub use read::read_annotated;
