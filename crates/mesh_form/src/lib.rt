//! Mesh writers: output formats for meshes, passed by the caller.
//!
//! Verified: `drive` passes points and faces in order to a mesh writer (`Form`); `PlyForm`, `OffForm`, `ObjForm` print exact texts.
//!
//! A `Form` receives a mesh's points and then its faces, one at a time, and has a text in the end. `drive` passes a mesh to it.
//! This crate has three writers, each the `TextForm` of a `FileFormat`: the mesh text of `mesh_ply` (`PlyForm`), OFF
//! (`OffForm`) and Wavefront OBJ (`ObjForm`). A caller's own writer needs no change here: one whose text is printed from the
//! whole mesh implements `FileFormat`; any other implements `Form`, and may keep what it receives in a `Receipt`.
//!
//! Depends on `mesh_ply` (meshes and their text), and through it on `line_text` and `geo_sign`.
#![tactic(auto)]

mod driving;
mod form;
mod obj;
mod off;
mod ply;
mod receipt;
mod stage;
mod text_form;

pub use driving::{drive, drive_all};
pub use form::Form;
pub use mesh::NoMemory;
pub use obj::{Obj, ObjForm};
pub use off::{Off, OffForm};
pub use ply::{Ply, PlyForm};
pub use receipt::Receipt;
pub use stage::Stage;
pub use text_form::{FileFormat, TextForm};
