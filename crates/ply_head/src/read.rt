//! Reads a header line by line.

ghost use Rattle.std.specs.Prelude.{◌≡◌, ◌≤◌, length, drop, None, Err, IfOk, IfSome, IfNone};
ghost use Rattle.ply_head.specs.Lines.{parts_of};
ghost use Rattle.ply_head.specs.Headers.{Gives, header_from, header_of};
ghost use Rattle.ply_head.specs.Reading.{IsEndOf};
ghost use Rattle.ply_head.specs.Grammar.{HasHeader};
ghost use Rattle.ply_head.specs.Readable.{IsReadable};

use crate::header::Header;
use crate::lines::line_of;
use crate::refusal::HeadRefusal;
use crate::steps::{Step, next_step};
use std::alloc::Global;

/// The maximal number of lines in a header.
const LINES_LIMIT: u32 = 1_000;

/// Returns the header whose lines from line 2 on begin the bytes, and the bytes after it.
fn lines_from(alloc: Global, bytes: &[u8]) -> Result<(Header, &[u8]), HeadRefusal>
    ensures head { Gives (λ found. (found.0, found.1.now)) result (header_from 2 None (parts_of bytes.now)) }
    ensures tail { IfOk result (λ found. IsEndOf found.1.now bytes.now) }
{
    let mut rest = bytes;
    let mut head = None;
    for number in 2..LINES_LIMIT + 1 {
        let (line, behind) = line_of(rest, number)?;
        rest = behind;
        match next_step(alloc, number, head, line)? {
            Step::Goes(next) => head = next,
            Step::Ends(whole) => return Ok((whole, rest)),
        }
    }
    Err(HeadRefusal::LongHeader)
}

/// Returns the bytes after the first line, if that is `ply`.
#[tactic(auto, unfolding(crate::specs::Headers::header_of))]
fn behind_first(bytes: &[u8]) -> Option<&[u8]>
    ensures some { IfSome result (λ rest. header_of bytes.now ≡ header_from 2 None (parts_of rest.now)) }
    ensures tail { IfSome result (λ rest. IsEndOf rest.now bytes.now) }
    ensures none { IfNone result (header_of bytes.now ≡ Err HeadRefusal.NotPly) }
{
    if bytes.starts_with(b"ply\n") {
        Some(&bytes[4..])
    } else if bytes.starts_with(b"ply\r\n") {
        Some(&bytes[5..])
    } else {
        None
    }
}

/// Returns the header at the start of the bytes, and the position of the body's first byte, counted from 0.
///
/// Returns the first error, line by line, in the order of [`HeadRefusal`]. The result takes memory only for the names and the
/// elements.
pub fn read_head(alloc: Global, bytes: &[u8]) -> Result<(Header, usize), HeadRefusal>
    ensures exact { Gives (λ found. (found.0, drop found.1 bytes.now)) result (header_of bytes.now) }
    ensures position { IfOk result (λ found. found.1 ≤ length bytes.now) }
    ensures grammar { IfOk result (λ found. HasHeader bytes.now found.0 (drop found.1 bytes.now)) }
    ensures readable { IfOk result (λ found. IsReadable found.0) }
{
    let rest = match behind_first(bytes) {
        Some(rest) => rest,
        None => return Err(HeadRefusal::NotPly),
    };
    let (head, body) = lines_from(alloc, rest)?;
    let position = bytes.len() - body.len();
    Ok((head, position))
}
