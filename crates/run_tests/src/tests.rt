//! Runs over a host in memory: calls that fail, files that are too long, and a mesh writer of a caller's own; generated scans,
//! and an example.

mod every_call;
mod export;
mod fixtures;
mod forms;
mod generated_scans;
mod rows;
mod sweeps;
mod too_long;
mod watched;
