//! The files of a host in memory: a list of names, each with memory for its bytes, whether or not the file exists yet.
use crate::store::Store;

/// A name, and its file, if it exists.
#[derive(Drop)]
pub struct MemFile {
    pub name: String,
    pub store: Store,
    pub exists: bool,
}

mod handed;
mod places;

pub use handed::kept_files;
pub use places::{add_to_file, empty_file, find_file, is_full, place_of_name, read_file};
