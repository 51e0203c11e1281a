//! The lines of `join`.

ghost use Rattle.std.specs.Prelude.{◌≡◌, IfOk, Some};
ghost use Rattle.join_cmd.specs.Lines.{too_long_tiles_line, too_long_tile_line, tiles_error_line, tile_error_line, tile_line_line, open_line, join_error_line, joined_line};

use command_run::{NoMemory, line_of_number, line_of_text, push_labelled};
use mesh_join::{Refusal, UnbalancedEdge};
use mesh_ply::MeshRefusal;
use std::alloc::{AllocError, Global};
use tile_list::LineRefusal;

/// Returns the line for a list that is longer than the limit.
#[tactic(auto, unfolding(crate::specs::Lines::too_long_tiles_line))]
pub(crate) fn line_of_too_long_list() -> &'static [u8]
    ensures { result.now ≡ too_long_tiles_line }
{
    b"refused 19 too_long tiles\n"
}

/// Returns the line for the mesh of a tile that is longer than the limit.
pub(crate) fn line_of_too_long_tile(alloc: Global, tile: u64) -> Result<Vec<u8>, NoMemory>
    ensures { IfOk result (λ line. line.items ≡ too_long_tile_line tile) }
{
    line_of_number(alloc, b"refused 19 too_long tile ", tile)
}

/// Returns the line for a list that is rejected. Out of memory has no line.
pub(crate) fn line_of_list_error(alloc: Global, why: LineRefusal) -> Result<Vec<u8>, NoMemory>
    ensures { IfOk result (λ line. tiles_error_line why ≡ Some line.items) }
{
    match why {
        LineRefusal::BadLine(line) | LineRefusal::Order(line) => {
            line_of_number(alloc, b"refused 37 tiles_line line ", line)
        }
        LineRefusal::Cut => line_of_text(alloc, b"refused 38 tiles_cut"),
        LineRefusal::NoMemory => Err(AllocError),
    }
}

/// Returns the line for a line of a tile's mesh.
#[tactic(auto, unfolding(crate::specs::Lines::tile_line_line))]
fn line_of_tile_line(alloc: Global, tile: u64, at: u64) -> Result<Vec<u8>, NoMemory>
    ensures { IfOk result (λ line. line.items ≡ tile_line_line tile at) }
{
    let mut line = Vec::new(alloc);
    push_labelled(&mut line, b"refused 39 tile_line tile ", tile)?;
    push_labelled(&mut line, b" line ", at)?;
    line.push(b'\n')?;
    Ok(line)
}

/// Returns the line for the mesh of a tile that is rejected. Out of memory has no line.
pub(crate) fn line_of_tile_error(
    alloc: Global,
    tile: u64,
    why: MeshRefusal,
) -> Result<Vec<u8>, NoMemory>
    ensures { IfOk result (λ line. tile_error_line tile why ≡ Some line.items) }
{
    match why {
        MeshRefusal::BadLine(line) => line_of_tile_line(alloc, tile, u64::from(line)),
        MeshRefusal::MeshCut => line_of_number(alloc, b"refused 40 tile_cut tile ", tile),
        MeshRefusal::NoMemory => Err(AllocError),
    }
}

/// Returns the line for an edge that stays open.
#[tactic(auto, unfolding(crate::specs::Lines::open_line))]
fn line_of_open_edge(alloc: Global, edge: UnbalancedEdge) -> Result<Vec<u8>, NoMemory>
    ensures { IfOk result (λ line. line.items ≡ open_line edge) }
{
    let mut line = Vec::new(alloc);
    push_labelled(
        &mut line,
        b"refused 43 open_join from ",
        u64::from(edge.from),
    )?;
    push_labelled(&mut line, b" to ", u64::from(edge.to))?;
    push_labelled(&mut line, b" there ", u64::from(edge.there))?;
    push_labelled(&mut line, b" back ", u64::from(edge.back))?;
    line.push(b'\n')?;
    Ok(line)
}

/// Returns the line for tiles that are not joined.
pub(crate) fn line_of_join_error(alloc: Global, why: Refusal) -> Result<Vec<u8>, NoMemory>
    ensures { IfOk result (λ line. join_error_line why ≡ line.items) }
{
    match why {
        Refusal::Flat(tile) => line_of_number(alloc, b"refused 41 flat_tile tile ", tile as u64),
        Refusal::TooMany => line_of_text(alloc, b"refused 42 too_many_places"),
        Refusal::Open(edge) => line_of_open_edge(alloc, edge),
    }
}

/// The numbers of a line of `join`.
#[derive(Clone, Copy, Debug)]
pub(crate) struct Numbers {
    /// The tiles.
    pub tiles: usize,
    /// The points of the joined mesh.
    pub points: usize,
    /// Its faces.
    pub faces: usize,
    /// The moved edges.
    pub moved: usize,
    /// The faces of no tile.
    pub filled: usize,
}

/// Returns the line of `join`.
#[tactic(auto, unfolding(crate::specs::Lines::joined_line))]
pub(crate) fn line_of_join(alloc: Global, of: Numbers) -> Result<Vec<u8>, NoMemory>
    ensures { IfOk result (λ line. line.items ≡ joined_line of.tiles of.points of.faces of.moved of.filled) }
{
    let mut line = Vec::new(alloc);
    push_labelled(&mut line, b"joined tiles ", of.tiles as u64)?;
    push_labelled(&mut line, b" points ", of.points as u64)?;
    push_labelled(&mut line, b" faces ", of.faces as u64)?;
    push_labelled(&mut line, b" moved ", of.moved as u64)?;
    push_labelled(&mut line, b" filled ", of.filled as u64)?;
    line.push(b'\n')?;
    Ok(line)
}
