//! The initial files of a host in memory.
ghost use Rattle.std.specs.Prelude.{◌≡◌, ◌<◌, ℕ, IfOk, length};
ghost use Rattle.host.specs.Files.{files_of, names_of_files, room_at, FilesApart};
ghost use Rattle.host.specs.Handed.{files_handed, names_handed, NamesApart, IsMadeOf};

use super::MemFile;
use crate::NoMemory;
use crate::store::Store;
use std::alloc::Global;

/// Returns a file with capacity, from the pair that was passed.
fn kept_file(
    alloc: Global,
    handed: (String, Option<Vec<u8>>),
    room: usize,
) -> Result<MemFile, NoMemory>
    ensures { IfOk result (λ file. IsMadeOf room file handed) }
{
    let (name, bytes) = handed;
    match bytes {
        Some(bytes) => Ok(MemFile {
            name,
            store: Store::new(bytes, room)?,
            exists: true,
        }),
        None => Ok(MemFile {
            name,
            store: Store::new(Vec::new(alloc), room)?,
            exists: false,
        }),
    }
}

/// Returns the files with a capacity of `room` bytes each; `None` is a name that has no file yet.
#[tactic(auto, using(crate::proofs::Handed::kept))]
pub fn kept_files(
    alloc: Global,
    files: Vec<(String, Option<Vec<u8>>)>,
    room: usize,
) -> Result<Vec<MemFile>, NoMemory>
    requires { NamesApart files.items }
    ensures files { IfOk result (λ kept. files_of kept.items ≡ files_handed files.items) }
    ensures names { IfOk result (λ kept. names_of_files kept.items ≡ names_handed files.items) }
    ensures apart { IfOk result (λ kept. FilesApart kept.items) }
    ensures room { IfOk result (λ kept. (place : ℕ) → place < length kept.items → room_at kept.items place ≡ room) }
{
    let mut kept = Vec::with_capacity(alloc, files.len())?;
    for handed in files {
        kept.push(kept_file(alloc, handed, room)?)?;
    }
    Ok(kept)
}
