//! The parts that the commands of all programs share: statuses, answers, lines, and the effect of a run on its host.
//!
//! Verified: `carry_out` writes the files of an answer in order, then prints its line; `read_mesh_file` reads a mesh or its error.
//! `read_mesh_file` returns the first error.
//!
//! A command computes its answer in memory: a status, the files to write and the line to print (`specs/Answers`). [`carry_out`]
//! then writes the files in order and prints the line. The effect on the host, also of a failed call, is defined for any set of
//! answers (`specs/Outcome`): no file is created before the answer is in memory, nothing of the line is printed before all files
//! are complete, and after an error all files are unchanged. [`read_mesh_file`] reads the first input of a command, if it is a
//! mesh, and returns the line of an invalid one.
//!
//! It depends on `host` (files and standard output), `mesh_ply` (meshes) and `num_text` (numbers in lines).
#![tactic(auto)]

mod carrying;
mod lines;
mod meshes;
mod names;
mod reply;
mod status;

pub use carrying::{carry_out, conclude};
pub use lines::{
    line_of_bad_arguments, line_of_mesh_error, line_of_number, line_of_text, line_of_too_long_mesh,
    push_labelled,
};
pub use meshes::{FILE_LIMIT, MeshReading, read_mesh_file};
pub use names::{are_names, is_name};
pub use reply::{Line, Reply, Stop, Text, invalid_input};
pub use status::Status;
use std::alloc::AllocError;

/// Out of memory.
pub type NoMemory = AllocError;
