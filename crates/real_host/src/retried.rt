//! Calls of the system that are repeated if they are interrupted. Depends on std's files, readers and writers.
//!
//! Each returns the result of its last call, or after 1,000 interruptions an error of its own. None of these errors is an
//! interruption.
ghost use Rattle.std.specs.Prelude.{◌≢◌, IfErr, IfOk};
ghost use Rattle.std.specs.IoError.{error_kind};
ghost use Rattle.std.specs.Io.{ReadsAtMost};
ghost use Rattle.std.specs.Io.KnownBytes.{ReadConsumes, WriteAppends};
ghost use Rattle.host.specs.State.{IsFrontCount};

use std::io::{ErrorKind, Read, Write};
use std::rt::Files;
use std::{fs, io};

/// The number of attempts for an interrupted call.
const MOST_TRIES: u32 = 1000;

/// Opens a file for reading. For the system's own files std repeats an interrupted open by itself, without limit, so no
/// interruption is seen here.
pub fn open_retried<R: Files>(rt: &R, name: &str) -> io::Result<R::File>
    ensures patient { IfErr result (λ error. error_kind error ≢ ErrorKind.Interrupted) }
{
    for _ in 0..MOST_TRIES {
        match fs::open(rt, name) {
            Ok(file) => return Ok(file),
            Err(error) if error.kind() == ErrorKind::Interrupted => {}
            Err(error) => return Err(error),
        }
    }
    Err(ErrorKind::TimedOut.into())
}

/// Creates or empties a file, for writing. Interruptions are as of [`open_retried`].
pub fn create_retried<R: Files>(rt: &R, name: &str) -> io::Result<R::File>
    ensures patient { IfErr result (λ error. error_kind error ≢ ErrorKind.Interrupted) }
{
    for _ in 0..MOST_TRIES {
        match fs::create(rt, name) {
            Ok(file) => return Ok(file),
            Err(error) if error.kind() == ErrorKind::Interrupted => {}
            Err(error) => return Err(error),
        }
    }
    Err(ErrorKind::TimedOut.into())
}

/// Reads the next bytes into the buffer.
///
/// The result and the buffer are what the reader gave: the number of bytes read, zero only at the end or if the buffer is
/// empty. After an error the reader gave nothing.
pub fn read_retried<F: Read>(reader: &mut F, buffer: &mut [u8]) -> io::Result<usize>
    ensures within { ReadsAtMost result buffer.new }
    ensures given { ReadConsumes (F.remaining reader.old) (F.remaining reader.new) result buffer.new }
    ensures patient { IfErr result (λ error. error_kind error ≢ ErrorKind.Interrupted) }
{
    for _ in 0..MOST_TRIES {
        match reader.read(buffer) {
            Ok(count) => return Ok(count),
            Err(error) if error.kind() == ErrorKind::Interrupted => {}
            Err(error) => return Err(error),
        }
    }
    Err(ErrorKind::TimedOut.into())
}

/// Writes a prefix of the bytes, at least one if there is one: a write of none is an error.
///
/// Returns the number of bytes that the writer took. After an error it took none.
pub fn write_retried<W: Write>(writer: &mut W, bytes: &[u8]) -> io::Result<usize>
    ensures front { IfOk result (λ count. IsFrontCount count bytes.now) }
    ensures taken { WriteAppends (W.contents writer.old) (W.contents writer.new) result bytes.now }
    ensures patient { IfErr result (λ error. error_kind error ≢ ErrorKind.Interrupted) }
{
    for _ in 0..MOST_TRIES {
        match writer.write(bytes) {
            Ok(0) if !bytes.is_empty() => return Err(ErrorKind::WriteZero.into()),
            Ok(count) => return Ok(count),
            Err(error) if error.kind() == ErrorKind::Interrupted => {}
            Err(error) => return Err(error),
        }
    }
    Err(ErrorKind::TimedOut.into())
}
