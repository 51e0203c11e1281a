//! The environment of a program as a trait: files by name, and output.
//!
//! Contracts see a host as one `State`: its bytes, if the host exposes them, and four components that it always exposes, among
//! them the fault count. Each call is one equation on the whole state, so what its contract does not name does not change.
ghost use Rattle.std.specs.Prelude.{◌≡◌, ◌≤◌, length, take, false, IsTrue, IfOk, OnOk, OnErr, IfSome};
ghost use Rattle.host.specs.State.{State, IsCoherent, HasFile, IsFrontCount, IsNextPiece, FailedFrom, opens_file, opens_none, takes, creates, stops_reading, appends, finishes, says};

/// A call of a host failed. The host has counted it as a fault.
#[derive(Clone, Copy, Debug, PartialEq, Eq)]
pub struct Failed;

/// Files by name, one at a time read or written, and output.
///
/// A call that returns `Failed` has raised the host's fault count, or the count is at its maximum, 2^64 - 1. A call that
/// returns `Ok` leaves the count. A host in memory exposes its bytes; a real file system need not, and then the contracts state
/// its counts and its open files alone.
pub trait Host {
    ghost state: { Self → State };

    /// Opens the named file for reading, from its first byte on. No file may be open for writing.
    ///
    /// In any case the count of opens rises by one. After `Failed` no file is open for reading. A name without a file always
    /// gives `Failed`, if the host exposes its files.
    fn open(&mut self, name: &str) -> Result<(), Failed>
        requires { (state self.old).writing ≡ false }
        ensures there { OnOk result (HasFile name.now (state self.old)) }
        ensures opened { OnOk result (state self.new ≡ opens_file name.now (state self.old)) }
        ensures failed { OnErr result (FailedFrom (opens_none (state self.old)) (state self.new)) };

    /// Reads the next bytes of the file that is open for reading into the start of the buffer.
    ///
    /// If the buffer is not empty, the result is 0 exactly at the end. After `Failed` nothing was read.
    fn read(&mut self, buffer: &mut [u8]) -> Result<usize, Failed>
        requires { IsTrue (state self.old).reading }
        ensures within { IfOk result (λ count. count ≤ length buffer.new) }
        ensures next_bytes { IfOk result (λ count. IfSome (state self.old).told (λ told. IsNextPiece count buffer.new told.left)) }
        ensures taken { IfOk result (λ count. state self.new ≡ takes count (state self.old)) }
        ensures failed { OnErr result (FailedFrom (state self.old) (state self.new)) };

    /// Creates or empties the named file, and opens it for writing. No file may be open for writing.
    ///
    /// In any case no file is open for reading afterwards. After `Failed` the files are unchanged, and none is open for
    /// writing.
    fn create(&mut self, name: &str) -> Result<(), Failed>
        requires { (state self.old).writing ≡ false }
        ensures created { OnOk result (state self.new ≡ creates name.now (state self.old)) }
        ensures failed { OnErr result (FailedFrom (stops_reading (state self.old)) (state self.new)) };

    /// Appends a prefix of the bytes to the file that is open for writing, and returns its length, at least one unless there
    /// are no bytes. After `Failed` nothing was appended.
    fn append(&mut self, bytes: &[u8]) -> Result<usize, Failed>
        requires { IsTrue (state self.old).writing }
        ensures front { IfOk result (λ count. IsFrontCount count bytes.now) }
        ensures added { IfOk result (λ count. state self.new ≡ appends (take count bytes.now) (state self.old)) }
        ensures failed { OnErr result (FailedFrom (state self.old) (state self.new)) };

    /// Closes the file that is open for writing. In any case no file is open for writing afterwards, and the files are
    /// unchanged.
    fn finish(&mut self) -> Result<(), Failed>
        requires { IsTrue (state self.old).writing }
        ensures finished { OnOk result (state self.new ≡ finishes (state self.old)) }
        ensures failed { OnErr result (FailedFrom (finishes (state self.old)) (state self.new)) };

    /// Prints a prefix of the bytes, and returns its length, at least one unless there are no bytes. After `Failed` nothing was
    /// printed.
    fn say(&mut self, bytes: &[u8]) -> Result<usize, Failed>
        ensures front { IfOk result (λ count. IsFrontCount count bytes.now) }
        ensures said { IfOk result (λ count. state self.new ≡ says (take count bytes.now) (state self.old)) }
        ensures failed { OnErr result (FailedFrom (state self.old) (state self.new)) };

    // The state of an open file is empty if none is open.
    ghost coherent: { (host : Self) → IsCoherent (state host) };
}
