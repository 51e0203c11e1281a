//! Theorems on runs of `check`, for auditors.
//!
//! Verified: if `check` is done, the mesh is the best surface and no call failed; exactly what it accepts for a printed scan.
//!
//! The crate does no work at run time. Each function is a theorem: its contract is the statement and its body is empty. They say what
//! `a_mesh_that_was_checked_is_best` and `a_check_says_what_its_files_are` of `recon_cmd` say, with fewer premises and definitions.
#![tactic(auto)]

ghost use Rattle.recon_laws.specs.ExactChecks.{PrintedCheckIsExact};
ghost use Rattle.recon_laws.specs.Laws.{DoneCheckIsBest, DoneCheckOfPrintedIsBest, DoneHadNoFailure, TextIsPrinted};

/// If a run of any command is done, no call of its host failed in it.
pub fn a_run_that_is_done_had_no_failure()
    ensures { DoneHadNoFailure }
{}

/// If the host exposes its files and `check` or `upgrade` is done, the first file is a scan and the mesh is the text of its best surface at
/// these weights, for any certificate. If the first file is the printed form of a scan, the mesh is the best surface of that scan.
pub fn a_checked_mesh_is_best()
    ensures any { DoneCheckIsBest }
    ensures printed { DoneCheckOfPrintedIsBest }
{}

/// The printed form, whose header is literal text here, is what `push_scan` of `scan` writes.
pub fn a_printed_scan_is_a_text()
    ensures { TextIsPrinted }
{}

/// If the host exposes its files, no call fails and memory suffices, and the first file is the printed form of a scan, then `check` and
/// `upgrade` are done exactly if no file is longer than the limit, the mesh is the text of the best surface, and the certificate is the
/// text of a certificate of its labels, with any valid flow whose value is their cost. They say no exactly if no file is longer and this
/// does not hold, and reject their input exactly if a file is longer.
pub fn a_check_of_a_printed_scan_is_exact()
    ensures { PrintedCheckIsExact }
{}
