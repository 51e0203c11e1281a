//! Why a text that is read line by line is rejected, and the error at one line.

ghost use Rattle.line_text.specs.Refusals.{IsCutOrBad};

/// Why bytes are not a text of the format. Lines are counted from 1.
///
/// The formats that use this crate have error types of their own, made from these.
#[derive(Clone, Copy, Debug, PartialEq, Eq, Drop)]
pub enum LineRefusal {
    /// The line is invalid, or it begins after the last line.
    BadLine(u64),
    /// The line is valid, but its row is not above the row before it.
    Order(u64),
    /// The bytes end before the end of an expected line.
    Cut,
    /// Out of memory.
    NoMemory,
}

/// Returns the error for an invalid line at the start of the text.
pub fn refusal_of(text: &[u8], line: u64) -> LineRefusal
    ensures { IsCutOrBad line text.now result }
{
    if text.contains(&b'\n') {
        LineRefusal::BadLine(line)
    } else {
        LineRefusal::Cut
    }
}
