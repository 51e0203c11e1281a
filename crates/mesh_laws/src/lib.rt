//! Theorems on runs of `recon-mesh`, for readers of the contract of `run` in `mesh_cmd`.
//!
//! Verified: `check`, `inspect` and a second `finish` accept what `finish` writes; `inspect` and `check` have one answer.
//!
//! The crate does no work at run time. Each function is a theorem: its contract is the statement and its body is empty.
#![tactic(auto)]

ghost use Rattle.mesh_laws.specs.Laws.{FinishedIsConfirmed, FinishedIsInspected, FinishedIsFinished, InspectAnswerIsOne, ConfirmAnswerIsOne};

/// If `finish` was done with comments, and `check` with the same names follows without a failed call, it answers yes, if the file that was
/// written is no longer than the limit, or runs out of memory.
pub fn a_finished_mesh_is_confirmed()
    ensures { FinishedIsConfirmed }
{}

/// If `finish` was done, and `inspect` of its output follows without a failed call, it prints the measures if the file is no longer than
/// the limit, or runs out of memory: it rejects no mesh of `finish`.
pub fn a_finished_mesh_is_inspected()
    ensures { FinishedIsInspected }
{}

/// If `finish` was done, and another `finish` of its output follows without a failed call, it is done if the file is no longer than the
/// limit, or runs out of memory: it rejects no mesh of `finish` as invalid or open. With `pieces=` or `manifold=yes` it may reject it since
/// a step did not pass its verification.
pub fn a_finished_mesh_is_finished_again()
    ensures { FinishedIsFinished }
{}

/// If the files are given, two answers of `inspect` are equal, or differ only in the numbers of crossing and undecided pairs of faces and
/// in the first pair. So are two answers of `check`, unless the second mesh states that it was simplified: a `no` and its line are unique,
/// and no mesh has both answers. Nothing is stated of `finish`, `move` and `simplify`: their meshes are not unique.
pub fn an_answer_is_unique()
    ensures inspect { InspectAnswerIsOne }
    ensures check { ConfirmAnswerIsOne }
{}
