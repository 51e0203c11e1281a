//! The commands of `recon-mesh`, from the arguments of a command line to the files that are written and the line that is printed.
//!
//! Verified: `run` states arguments, status, files and printed line of each command of `recon-mesh`, over any host.
//!
//! [`run`] is the program apart from the system: it works over any `Host`. A command is a value: the arguments that ask for it, and
//! its task, which is how it may end, how many files it reads and its answers. The commands stand in `specs/Commands`, and each has
//! a file of its own there and in `src/commands`. What a run does to its host is stated once for all commands, in `command_run`.
//!
//! It depends on `command_run` (answers and what a run does), `mesh_finish` (finished meshes), `mesh_check` (what such a mesh has to
//! be), `join_cmd` (joins), `mesh_measures` and `mesh_crossings` (measures), `mesh_provenance` (their text, with where they come from) and `sha2`.
#![tactic(auto)]

mod commands;
mod crossings;
mod input;
mod laws;
mod options;
mod simplify_request;
mod whole_run;

pub use command_run::{NoMemory, Status};
pub use commands::{
    CheckWords, Command, FinishWords, InspectWords, Measures, MoveWords, SimplifyWords, understand,
};
pub use finish_options::{FinishOptions, SimplifyOptions};
pub use input::{InputMesh, InputReading, Role, read_input};
pub use join_cmd::JoinWords;
pub use laws::the_limits_are_these;
pub use mesh_provenance::Provenance;
pub use options::FinishRequest;
pub use simplify_request::SimplifyRequest;
pub use whole_run::run;
