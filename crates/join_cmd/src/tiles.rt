//! The tiles of a list, and their cores.

ghost use Rattle.std.specs.Prelude.{◌≡◌, IfOk, All};
ghost use Rattle.tile_list.specs.Entries.{IsBoxedCorner, IsBoxedTile, IsEntry};
ghost use Rattle.join_cmd.specs.Join.{point_of_corner, tiles_of, core_of, cores_of};

use command_run::NoMemory;
use geo_sign::Point;
use mesh_join::Core;
use std::alloc::Global;
use tile_list::{Corner, Entry, TileLine};

/// Returns the tiles among the entries of a list, in their order.
pub(crate) fn tiles_in<'a>(
    alloc: Global,
    entries: &[Entry<'a>],
) -> Result<Vec<TileLine<'a>>, NoMemory>
    requires { All IsEntry entries.now }
    ensures tiles { IfOk result (λ tiles. tiles.items ≡ tiles_of entries.now) }
    ensures boxed { IfOk result (λ tiles. All IsBoxedTile tiles.items) }
{
    let mut tiles = Vec::new(alloc);
    for entry in entries {
        match entry {
            Entry::Cut(_) => {}
            Entry::Tile(tile) => tiles.push(*tile)?,
        }
    }
    Ok(tiles)
}

fn point_in(corner: Corner) -> Point
    requires { IsBoxedCorner corner }
    ensures { result ≡ point_of_corner corner }
{
    match Point::in_box(corner.x, corner.y, corner.z) {
        Some(point) => point,
        None => unreachable!(),
    }
}

fn core_in(tile: &TileLine<'_>) -> Core
    requires { IsBoxedTile tile.now }
    ensures { result ≡ core_of tile.now }
{
    Core {
        low: point_in(tile.low),
        high: point_in(tile.high),
    }
}

/// Returns the cores of tiles.
pub(crate) fn cores_in(alloc: Global, tiles: &[TileLine<'_>]) -> Result<Vec<Core>, NoMemory>
    requires { All IsBoxedTile tiles.now }
    ensures { IfOk result (λ cores. cores.items ≡ cores_of tiles.now) }
{
    let mut cores = Vec::with_capacity(alloc, tiles.len())?;
    for tile in tiles {
        cores.push(core_in(tile))?;
    }
    Ok(cores)
}
