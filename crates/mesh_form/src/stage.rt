//! The stage of a writer.

/// How much of its mesh a writer has received.
#[derive(Clone, Copy, Debug, PartialEq, Eq)]
pub enum Stage {
    /// Nothing was passed, and no numbers are due.
    Fresh,
    /// The numbers due are known; points and then faces are passed.
    Begun,
    /// Everything was received, and the text is complete.
    Ended,
}
