//! Hints for users on standard error.

/// Prints hints for users on standard error, beside the program's output. No contract depends on it.
pub trait Advice: Drop {
    /// Returns the program's name, with which each of these texts begins.
    fn program(&self) -> &'static str;

    /// Prints a hint about the line that was printed.
    fn advise<R: Eprint>(&self, rt: &R, line: &[u8]);
}
