//! Sorts faces along the curve of Morton (1966), so that consecutive faces are near each other.

ghost use Rattle.std.specs.Prelude.{◌≡◌, IfOk, IsPermutation, map};
ghost use Rattle.mesh_finish.specs.Order.{unkeyed};

use crate::NoMemory;
use geo_sign::Point;
use std::alloc::Global;

/// A face and its sort key.
#[derive(Clone, Copy)]
struct Keyed {
    key: u64,
    face: [u32; 3],
}

/// Returns the bits of a number of 21 bits, each followed by two zeros.
fn spread(x: u64) -> u64 {
    let x = (x | x << 32) & 0x001f_0000_0000_ffff;
    let x = (x | x << 16) & 0x001f_0000_ff00_00ff;
    let x = (x | x << 8) & 0x100f_00f0_0f00_f00f;
    let x = (x | x << 4) & 0x10c3_0c30_c30c_30c3;
    (x | x << 2) & 0x1249_2492_4924_9249
}

/// Returns an eighth of the distance from the box's wall.
fn cell(x: i32) -> u64 {
    (i64::from(x) + 8_388_608).unsigned_abs() >> 3 & 0x001f_ffff
}

/// Returns the position of a point on the curve.
fn key_of(p: Point) -> u64 {
    spread(cell(p.x())) | spread(cell(p.y())) << 1 | spread(cell(p.z())) << 2
}

/// Returns the position of a face on the curve, by one of its corners.
fn key_at(points: &[Point], v: u32) -> u64 {
    match points.get(v as usize) {
        Some(p) => key_of(*p),
        None => 0,
    }
}

/// Returns the faces with their keys.
fn with_keys(alloc: Global, points: &[Point], faces: &[[u32; 3]]) -> Result<Vec<Keyed>, NoMemory>
    ensures { IfOk result (λ list. map unkeyed list.items ≡ faces.now) }
{
    let mut list = Vec::with_capacity(alloc, faces.len())?;
    for face in faces {
        let [a, _, _] = *face;
        list.push(Keyed {
            key: key_at(points, a),
            face: *face,
        })?;
    }
    Ok(list)
}

/// Sorts faces by their keys.
fn sort(list: &mut [Keyed])
    ensures { IsPermutation list.old list.new }
{
    list.sort_unstable_by_key(|keyed| keyed.key);
}

/// Returns the faces without their keys.
fn faces_of(alloc: Global, list: &[Keyed]) -> Result<Vec<[u32; 3]>, NoMemory>
    ensures { IfOk result (λ faces. faces.items ≡ map unkeyed list.now) }
{
    let mut faces = Vec::with_capacity(alloc, list.len())?;
    for keyed in list {
        faces.push(keyed.face)?;
    }
    Ok(faces)
}

/// Returns the faces sorted along the curve.
pub(crate) fn in_order(
    alloc: Global,
    points: &[Point],
    faces: &[[u32; 3]],
) -> Result<Vec<[u32; 3]>, NoMemory>
    ensures { IfOk result (λ sorted. IsPermutation faces.now sorted.items) }
{
    let mut list = with_keys(alloc, points, faces)?;
    sort(&mut list);
    faces_of(alloc, &list)
}
