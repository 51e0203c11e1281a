//! Four calls over any host: read or write a whole file, append bytes, print bytes.
//!
//! Each returns `Failed` only if a call of the host failed, so only if the host's fault count rose or is at its maximum. Each
//! depends on the contracts of `Host` alone.
ghost use Rattle.host.specs.declared.calls.ReadRefusal.TheVariants as refusals;
ghost use Rattle.std.specs.Prelude.{Some, Err, ◌≡◌, ◌≤◌, ◌<◌, ◌+◌, length, false, IsTrue, IfOk, OnOk, OnErr, IfSome};
ghost use Rattle.host.specs.State.{file_bytes, takes, opens_file, appends, says};
ghost use Rattle.host.specs.Whole.{SaysFront, AppendsFront, writes, WritesFront, reads_whole, TakesFront, ReadFails, OnlyReads, HasCause};

use crate::host::{Failed, Host};
use std::alloc::{AllocError, AllocFailed, Global};
use thiserror::Error;

/// The number of bytes read at a time.
const BUFFER_LENGTH: usize = 4096;

/// Prints all bytes. After `Failed` a prefix of them was printed. Allocates no memory.
pub fn say_all<H: Host>(host: &mut H, bytes: &[u8]) -> Result<(), Failed>
    ensures said { OnOk result (H.state host.new ≡ says bytes.now (H.state host.old)) }
    ensures failed { OnErr result (SaysFront bytes.now (H.state host.old) (H.state host.new)) }
{
    let mut done = 0;
    while done < bytes.len() {
        done += host.say(&bytes[done..])?;
    }
    Ok(())
}

/// Appends all bytes to the file that is open for writing. After `Failed` a prefix of them was appended. Allocates no memory,
/// and leaves the file open.
pub fn append_all<H: Host>(host: &mut H, bytes: &[u8]) -> Result<(), Failed>
    requires { IsTrue (H.state host.old).writing }
    ensures added { OnOk result (H.state host.new ≡ appends bytes.now (H.state host.old)) }
    ensures failed { OnErr result (AppendsFront bytes.now (H.state host.old) (H.state host.new)) }
{
    let mut done = 0;
    while done < bytes.len() {
        done += host.append(&bytes[done..])?;
    }
    Ok(())
}

/// Writes a file with these bytes, and leaves no file open.
///
/// After `Failed` the file is unchanged, or contains a prefix of the bytes (possibly all); it is closed in any case. No other
/// file changes. Allocates no memory.
#[tactic(auto, using(crate::proofs::Changes::made_file))]
pub fn write_file<H: Host>(host: &mut H, name: &str, bytes: &[u8]) -> Result<(), Failed>
    requires { (H.state host.old).writing ≡ false }
    ensures written { OnOk result (H.state host.new ≡ writes name.now bytes.now (H.state host.old)) }
    ensures failed { OnErr result (WritesFront name.now bytes.now (H.state host.old) (H.state host.new)) }
    ensures closed { (H.state host.new).writing ≡ false }
{
    host.create(name)?;
    let added = append_all(host, bytes);
    let finished = host.finish();
    added?;
    finished
}

/// Why a file was not read completely.
#[derive(Debug, Drop, Error)]
pub enum ReadRefusal {
    /// A call of the host failed, and the host's fault count rose or is at its maximum.
    #[error("a host call failed")]
    Failed,
    /// The file has more bytes than the limit: one more than the limit was read.
    #[error("the file is longer than the limit")]
    TooLong,
    /// Out of memory for the bytes.
    #[error("no memory is left")]
    NoMemory,
}

impl From<Failed> for ReadRefusal {
    ghost from_gives = { λ _ refusal. refusal ≡ refusals.Failed };

    fn from(_: Failed) -> Self {
        ReadRefusal::Failed
    }
}

impl From<AllocError> for ReadRefusal {
    ghost from_gives = { λ _ refusal. refusal ≡ refusals.NoMemory };

    fn from(_: AllocError) -> Self {
        ReadRefusal::NoMemory
    }
}

/// Returns all the bytes of a file of at most `limit` bytes.
///
/// If no call of the host fails and there is enough memory, the result is the bytes if the file is no longer than the limit,
/// else `TooLong`. The file is opened once. A complete read leaves it open at its end; after an error some of its bytes may
/// have been read. No file changes.
pub fn read_all<H: Host>(
    alloc: Global,
    host: &mut H,
    name: &str,
    limit: u64,
) -> Result<Vec<u8>, ReadRefusal>
    requires { (H.state host.old).writing ≡ false }

    ensures bytes { IfOk result (λ bytes. IfSome (H.state host.old).told (λ told. told.files name.now ≡ Some bytes.items)) }
    ensures within { IfOk result (λ bytes. length bytes.items ≤ limit) }
    ensures read { OnOk result (H.state host.new ≡ reads_whole name.now (H.state host.old)) }

    // One byte more than the limit was read, so the file is longer.
    ensures too_long { result ≡ Err ReadRefusal.TooLong → H.state host.new ≡ takes (limit + 1) (opens_file name.now (H.state host.old)) }
    ensures longer { result ≡ Err ReadRefusal.TooLong → IfSome (H.state host.old).told (λ told. limit < length (file_bytes told.files name.now)) }

    ensures failed { result ≡ Err ReadRefusal.Failed → ReadFails limit name.now (H.state host.old) (H.state host.new) }
    ensures no_memory { result ≡ Err ReadRefusal.NoMemory → TakesFront limit name.now (H.state host.old) (H.state host.new) }

    ensures only_reads { OnlyReads (H.state host.old) (H.state host.new) }
    ensures cause { HasCause result (H.state host.old).faults (H.state host.new).faults }
{
    host.open(name)?;
    let mut bytes = Vec::new(alloc);
    let mut buffer = [0u8; BUFFER_LENGTH];
    loop {
        // One byte past the limit distinguishes a longer file from one that ends there.
        let room = limit - bytes.len() as u64;
        let asked = room.min(BUFFER_LENGTH as u64 - 1) as usize + 1;
        let count = host.read(&mut buffer[..asked])?;
        if count == 0 {
            return Ok(bytes);
        }
        if count as u64 > room {
            return Err(ReadRefusal::TooLong);
        }
        bytes.extend_from_slice(&buffer[..count])?;
    }
}
