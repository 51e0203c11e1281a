//! Operations on the file at an index of the list.
ghost use Rattle.std.specs.Prelude.{◌≡◌, ◌≢◌, ◌≤◌, ◌<◌, ◌-◌, ◌+◌, ◌^◌, ℕ, [], true, ◌↔◌, Some, None, IsTrue, OnSome, IfSome, IfNone, Contains, length, take, drop, min};
ghost use Rattle.host.specs.State.{file_bytes, with_file, with_more};
ghost use Rattle.host.specs.Files.{files_of, name_at, names_of_files, exists_at, bytes_at, FilesApart, room_at, KeepsPlaces};

use super::MemFile;

/// Returns the index of the first file of this name.
pub fn place_of_name(files: &[MemFile], name: &str) -> Option<usize>
    ensures found { IfSome result (λ place. (place < length files.now) × (name_at files.now place ≡ name.now)) }
    ensures none { IfNone result ((place : ℕ) → place < length files.now → name_at files.now place ≢ name.now) }
    ensures named { OnSome result (Contains (names_of_files files.now) name.now) }
    ensures unnamed { IfNone result (¬ Contains (names_of_files files.now) name.now) }
{
    for (i, file) in files.iter().enumerate() {
        if file.name.as_str() == name {
            return Some(i);
        }
    }
    None
}

/// Returns the index of the file of this name, if there is such a file.
#[tactic(auto, using(crate::proofs::FileList::found_file))]
pub fn find_file(files: &[MemFile], name: &str) -> Option<usize>
    requires { FilesApart files.now }
    ensures found { IfSome result (λ place. (exists_at files.now place ≡ true) × (files_of files.now name.now ≡ Some (bytes_at files.now place))) }
    ensures none { IfNone result (files_of files.now name.now ≡ None) }
{
    match place_of_name(files, name) {
        Some(place) if files[place].exists => Some(place),
        _ => None,
    }
}

/// Returns whether the file is at its capacity.
#[tactic(auto, using(crate::proofs::FileList::at_place))]
pub fn is_full(files: &[MemFile], at: usize) -> bool
    requires there { exists_at files.now at ≡ true }
    requires apart { FilesApart files.now }
    ensures { IsTrue result ↔ (room_at files.now at - length (file_bytes (files_of files.now) (name_at files.now at)) ≡ 0) }
{
    files[at].store.room <= files[at].store.bytes.len()
}

/// Copies the next bytes of a file, at most `piece`.
#[tactic(auto, using(crate::proofs::FileList::at_place))]
pub fn read_file(
    files: &[MemFile],
    at: usize,
    start: usize,
    piece: usize,
    buffer: &mut [u8],
) -> usize
    requires there { exists_at files.now at ≡ true }
    requires start { start ≤ length (bytes_at files.now at) }
    ensures count { result ≡ min piece (min (length buffer.old) (length (bytes_at files.now at) - start)) }
    ensures fits { start + result < 2 ^ 64 }
    ensures bytes { take result buffer.new ≡ take result (drop start (bytes_at files.now at)) }
{
    read_part(files[at].store.bytes.as_slice(), start, piece, buffer)
}

/// Copies the next bytes, at most `piece`.
fn read_part(bytes: &[u8], start: usize, piece: usize, buffer: &mut [u8]) -> usize
    requires { start ≤ length bytes.now }
    ensures count { result ≡ min piece (min (length buffer.old) (length bytes.now - start)) }
    ensures fits { start + result < 2 ^ 64 }
    ensures bytes { take result buffer.new ≡ take result (drop start bytes.now) }
{
    let count = piece.min(buffer.len().min(bytes.len() - start));
    buffer[..count].copy_from_slice(&bytes[start..start + count]);
    count
}

/// Creates the file at an index, or empties it.
pub fn empty_file(files: &mut [MemFile], at: usize)
    requires at { at < length files.old }
    requires apart { FilesApart files.old }
    ensures files { files_of files.new ≡ with_file (name_at files.old at) [] (files_of files.old) }
    ensures there { exists_at files.new at ≡ true }
    ensures places { KeepsPlaces files.old files.new }
{
    let file = &mut files[at];
    file.store.clear();
    file.exists = true;
}

/// Appends a prefix of the bytes to a file, at most `piece`, as far as its capacity allows.
#[tactic(auto, using(crate::proofs::FileList::exists_lt))]
pub fn add_to_file(files: &mut [MemFile], at: usize, bytes: &[u8], piece: usize) -> usize
    requires there { exists_at files.old at ≡ true }
    requires apart { FilesApart files.old }
    ensures count { result ≡ min piece (min (length bytes.now) (room_at files.old at - length (file_bytes (files_of files.old) (name_at files.old at)))) }
    ensures files { files_of files.new ≡ with_more (name_at files.old at) (take result bytes.now) (files_of files.old) }
    ensures there { exists_at files.new at ≡ exists_at files.old at }
    ensures places { KeepsPlaces files.old files.new }
{
    let file = &mut files[at];
    file.store.add(bytes, piece)
}
