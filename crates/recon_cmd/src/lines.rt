//! The lines of errors of scans, in memory. Depends on `scan` and `ply_head`, which have the errors, and on `ply_rows`, which
//! has the positions.
ghost use Rattle.std.specs.Prelude.{◌≡◌, IfOk, Some, ◌++◌, OnOk};
ghost use Rattle.recon_cmd.specs.Refusals.{too_long_scan_line, refusal_line, head_line, need_line, count_line, line_with_place, vertex_row_line, place_text, need_word};

use command_run::{NoMemory, line_of_number, line_of_text, push_labelled};
use num_text::push_whole;
use ply_head::HeadRefusal;
use ply_rows::Place;
use scan::{Need, ScanRefusal};
use std::alloc::{AllocError, Global};

/// Returns the line for a scan's file that is longer than the limit.
#[tactic(auto, unfolding(crate::specs::Refusals::too_long_scan_line))]
pub fn line_of_too_long_scan() -> &'static [u8]
    ensures { result.now ≡ too_long_scan_line }
{
    b"refused 19 too_long scan\n"
}

/// Returns the line for a scan that is rejected. Out of memory has no line.
pub fn line_of_refusal(alloc: Global, why: ScanRefusal) -> Result<Vec<u8>, NoMemory>
    ensures { IfOk result (λ line. refusal_line why ≡ Some line.items) }
{
    match why {
        ScanRefusal::Head(why) => line_of_head(alloc, why),
        ScanRefusal::Missing(need) => line_of_need(alloc, b"refused 7 missing ", need),
        ScanRefusal::ListProperty(need) => line_of_need(alloc, b"refused 8 list_property ", need),
        ScanRefusal::BinaryFloat(need) => line_of_need(alloc, b"refused 9 binary_float ", need),
        ScanRefusal::TooMany { need, count } => {
            line_of_count(alloc, b"refused 10 too_many ", need, count)
        }
        ScanRefusal::TwoScanners => line_of_text(alloc, b"refused 11 two_scanners"),
        ScanRefusal::BadToken(place) => line_of_place(alloc, b"refused 12 bad_token ", place),
        ScanRefusal::LongNumber(place) => line_of_place(alloc, b"refused 13 long_number ", place),
        ScanRefusal::OutOfRange(place) => line_of_place(alloc, b"refused 14 out_of_range ", place),
        ScanRefusal::NoSuchScanner { row, index } => {
            line_of_vertex_row(
                alloc,
                b"refused 15 no_such_scanner row ",
                row,
                b" index ",
                index,
            )
        }
        ScanRefusal::BadCount(place) => line_of_place(alloc, b"refused 16 bad_count ", place),
        ScanRefusal::Cut(place) => line_of_place(alloc, b"refused 17 cut ", place),
        ScanRefusal::Trailing { place } => {
            line_of_number(alloc, b"refused 18 trailing at ", place as u64)
        }
        ScanRefusal::BadWeight { row, weight } => {
            line_of_vertex_row(
                alloc,
                b"refused 21 bad_weight row ",
                row,
                b" weight ",
                weight,
            )
        }
        ScanRefusal::TooManySights { row } => {
            line_of_number(alloc, b"refused 22 too_many_sights row ", u64::from(row))
        }
        ScanRefusal::NoMemory => Err(AllocError),
    }
}

/// Returns the line of a header's error.
fn line_of_head(alloc: Global, why: HeadRefusal) -> Result<Vec<u8>, NoMemory>
    ensures { IfOk result (λ line. head_line why ≡ Some line.items) }
{
    match why {
        HeadRefusal::NotPly => line_of_text(alloc, b"refused 1 not_ply"),
        HeadRefusal::BadLine(line) => {
            line_of_number(alloc, b"refused 2 bad_line line ", u64::from(line))
        }
        HeadRefusal::LongLine(line) => {
            line_of_number(alloc, b"refused 3 long_line line ", u64::from(line))
        }
        HeadRefusal::LongHeader => line_of_text(alloc, b"refused 4 long_header"),
        HeadRefusal::Twice(line) => {
            line_of_number(alloc, b"refused 5 twice line ", u64::from(line))
        }
        HeadRefusal::HeadCut => line_of_text(alloc, b"refused 6 head_cut"),
        HeadRefusal::NoMemory => Err(AllocError),
    }
}

/// Returns a text, and the missing requirement.
#[tactic(auto, unfolding(crate::specs::Refusals::need_line))]
fn line_of_need(alloc: Global, text: &[u8], need: Need) -> Result<Vec<u8>, NoMemory>
    ensures { IfOk result (λ line. line.items ≡ need_line text.now need) }
{
    let mut line = Vec::new(alloc);
    line.extend_from_slice(text)?;
    line.extend_from_slice(word_of(need))?;
    line.push(b'\n')?;
    Ok(line)
}

/// Returns a text, and an element with its number of rows.
#[tactic(auto, unfolding(crate::specs::Refusals::count_line))]
fn line_of_count(alloc: Global, text: &[u8], need: Need, count: u32) -> Result<Vec<u8>, NoMemory>
    ensures { IfOk result (λ line. line.items ≡ count_line text.now need count) }
{
    let mut line = Vec::new(alloc);
    line.extend_from_slice(text)?;
    line.extend_from_slice(word_of(need))?;
    push_labelled(&mut line, b" count ", u64::from(count))?;
    line.push(b'\n')?;
    Ok(line)
}

/// Returns a text, and the position of the value.
#[tactic(auto, unfolding(crate::specs::Refusals::line_with_place))]
fn line_of_place(alloc: Global, text: &[u8], place: Place) -> Result<Vec<u8>, NoMemory>
    ensures { IfOk result (λ line. line.items ≡ line_with_place text.now place) }
{
    let mut line = Vec::new(alloc);
    line.extend_from_slice(text)?;
    push_place(&mut line, place)?;
    line.push(b'\n')?;
    Ok(line)
}

/// Returns a text, and the vertex row, and another text and a number that the row has.
#[tactic(auto, unfolding(crate::specs::Refusals::vertex_row_line))]
fn line_of_vertex_row(
    alloc: Global,
    text: &[u8],
    row: u32,
    label: &[u8],
    number: i64,
) -> Result<Vec<u8>, NoMemory>
    ensures { IfOk result (λ line. line.items ≡ vertex_row_line text.now row label.now number) }
{
    let mut line = Vec::new(alloc);
    push_labelled(&mut line, text, u64::from(row))?;
    line.extend_from_slice(label)?;
    push_whole(&mut line, i128::from(number))?;
    line.push(b'\n')?;
    Ok(line)
}

/// Appends the position of a value in a file.
#[tactic(auto, unfolding(crate::specs::Refusals::place_text))]
fn push_place(line: &mut Vec<u8>, place: Place) -> Result<(), NoMemory>
    ensures { OnOk result (line.new.items ≡ line.old.items ++ place_text place) }
{
    push_labelled(line, b"element ", u64::from(place.element))?;
    push_labelled(line, b" row ", u64::from(place.row))?;
    push_labelled(line, b" property ", u64::from(place.property))
}

/// Returns the name of a requirement of a scan.
fn word_of(need: Need) -> &'static [u8]
    ensures { result.now ≡ need_word need }
{
    match need {
        Need::VertexElement => b"vertex",
        Need::VertexX => b"vertex_x",
        Need::VertexY => b"vertex_y",
        Need::VertexZ => b"vertex_z",
        Need::VertexScanner => b"vertex_scanner",
        Need::ScannerElement => b"scanner",
        Need::ScannerX => b"scanner_x",
        Need::ScannerY => b"scanner_y",
        Need::ScannerZ => b"scanner_z",
    }
}
