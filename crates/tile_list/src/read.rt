//! Reads the list.

ghost use Rattle.std.specs.Prelude.{◌≡◌, ◌++◌, None, IfOk, IfErr};
ghost use Rattle.std.specs.List.{flat_map};
ghost use Rattle.line_text.specs.Lists.{WithMemory};
ghost use Rattle.line_text.specs.Refusals.{AreCountedRows, IsRefusedRow};
ghost use Rattle.tile_list.specs.Entries.{entry_line, IsEntry, IsTileList};
ghost use Rattle.tile_list.specs.Refusals.{IsRefusedTiles};

use crate::entry::{Entry, entry_first};
use line_text::{LineRefusal, number_line, refusal_of};
use std::alloc::Global;

/// The most tiles of a list.
pub const TILE_LIMIT: u64 = 4095;

/// Returns this number of entries from line 2 on, and the text after them.
fn entries_first(
    alloc: Global,
    text: &[u8],
    count: u64,
) -> Result<(Vec<Entry<'_>>, &[u8]), LineRefusal>
    ensures ok { IfOk result (λ read. AreCountedRows IsEntry None count read.0.items × (text.now ≡ flat_map entry_line read.0.items ++ read.1.now)) }
    ensures refused { IfErr result (λ r. WithMemory r (IsRefusedRow IsEntry entry_line None count 2 text.now r)) }
{
    let mut entries = Vec::new(alloc);
    let mut rest = text;
    let mut line = 2u64;
    for k in 0..count {
        let (entry, next) = match entry_first(rest) {
            Some(read) => read,
            None => return Err(refusal_of(rest, line)),
        };
        if entries.push(entry).is_err() {
            return Err(LineRefusal::NoMemory);
        }
        rest = next;
        line = line.saturating_add(1);
    }
    Ok((entries, rest))
}

/// Returns the entries of a list: the text is theirs, and the first line has the number of tiles, from 1 to 4,095.
///
/// Any other text gives its first error: `Cut` if the text ends before the line feed of an expected line, `BadLine` if the line, counted
/// from 1, is invalid, which includes any byte after the last entry, as a line of its own. Names are not compared with one another.
/// `NoMemory` says nothing about the text.
pub fn read_tiles(alloc: Global, text: &[u8]) -> Result<Vec<Entry<'_>>, LineRefusal>
    ensures ok { IfOk result (λ entries. IsTileList text.now entries.items) }
    ensures refused { IfErr result (λ r. WithMemory r (IsRefusedTiles text.now r)) }
{
    let (count, rest) = number_line(text, b"tiles ", 1, TILE_LIMIT, 1)?;
    let lines = 2 * count - 1;
    let (entries, rest) = entries_first(alloc, rest, lines)?;
    if !rest.is_empty() {
        return Err(LineRefusal::BadLine(lines + 2));
    }
    Ok(entries)
}
