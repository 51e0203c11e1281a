//! The commands of the program, from the arguments of a command line to the files that are written and the line that is
//! printed.
//!
//! Verified: `run`, `run_forms` state for each status what is printed, what each file contains, and that nothing else changes.
//!
//! `run` is the program without the operating system: it works over any `Host`. A command is a value: the arguments that
//! request it, the statuses with which it may end, the number of files it reads, and its answers, a relation on bytes
//! (`command_run`). The commands are listed in `specs/Commands`, and each is defined, with its lines, in a file of its own
//! there and in `src/commands`. The effect of an answer on the host is defined once for all commands, in `command_run`. Answers
//! to a scan are in `specs/Answers`, its errors in `specs/Refusals`, and options in `specs/Options`.
//! `run_forms` also takes mesh writers, and has the commands that write their texts.
#![tactic(auto)]

mod commands;
mod laws;
mod lines;
mod names;
mod options;
mod stamps;
mod whole_run;

pub use command_run::{FILE_LIMIT, NoMemory, Status};
pub use commands::{Command, Request, understand};
pub use laws::{
    a_check_says_what_its_files_are, a_command_has_one_answer, a_mesh_that_was_checked_is_best,
    a_refused_scan_is_refused, a_surface_that_was_built_is_accepted,
    a_surface_that_was_built_is_best, a_surface_that_was_built_is_sliced,
    a_sweep_is_as_fresh_builds, an_accepted_scan_is_done, an_upgraded_certificate_is_kept,
    labels_are_read_off_a_checked_certificate, the_limits_are_these,
};
pub use options::Options;
pub use whole_run::{run, run_forms, run_forms_within};
