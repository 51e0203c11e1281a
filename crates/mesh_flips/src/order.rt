//! Faces in an order in which they are mostly near those before, and a tree of their boxes: what is near in space shares a leaf.

ghost use Rattle.std.specs.Prelude.{◌≡◌, ◌<◌, ◌^◌, All, IfOk, length, map};
ghost use Rattle.std.specs.List.Sorted.{IsPermutation};
ghost use Rattle.mesh.specs.Meshes.{IsMesh, below};
ghost use Rattle.mesh_edges.specs.Edges.{face_at};
ghost use Rattle.mesh_flips.specs.Orders.{AreInOrder, Covers, face_number};

use crate::NoMemory;
use crate::driving::tree_of;
use geo_sign::Point;
use mesh::Mesh;
use std::alloc::Global;
use triangles::HullTree;

/// The number of a face and its sort key.
#[derive(Clone, Copy, Debug, PartialEq, Eq)]
pub(crate) struct Ranked {
    pub(crate) key: u64,
    pub(crate) number: u32,
}

/// Returns the bits of a number of 21 bits, each followed by two zeros.
fn spread(x: u64) -> u64 {
    let x = (x | x << 32) & 0x001f_0000_0000_ffff;
    let x = (x | x << 16) & 0x001f_0000_ff00_00ff;
    let x = (x | x << 8) & 0x100f_00f0_0f00_f00f;
    let x = (x | x << 4) & 0x10c3_0c30_c30c_30c3;
    (x | x << 2) & 0x1249_2492_4924_9249
}

/// Returns an eighth of the distance from the box's wall.
fn cell(x: i32) -> u64 {
    (i64::from(x) + 8_388_608).unsigned_abs() >> 3 & 0x001f_ffff
}

/// Returns the position of a point on the curve of Morton (1966). No contract depends on it.
pub fn curve_key(p: Point) -> u64 {
    spread(cell(p.x())) | spread(cell(p.y())) << 1 | spread(cell(p.z())) << 2
}

/// Returns the position of a face on the curve, by its first corner.
fn key_of(points: &[Point], face: [u32; 3]) -> u64 {
    let [a, _, _] = face;
    match points.get(a as usize) {
        Some(p) => curve_key(*p),
        None => 0,
    }
}

/// Returns the numbers of the faces with their keys.
fn with_keys(alloc: Global, points: &[Point], faces: &[[u32; 3]]) -> Result<Vec<Ranked>, NoMemory>
    requires { length faces.now < 2 ^ 32 }
    ensures { IfOk result (λ list. map face_number list.items ≡ below (length faces.now)) }
{
    let mut list = Vec::with_capacity(alloc, faces.len())?;
    for f in 0..faces.len() {
        list.push(Ranked {
            key: key_of(points, faces[f]),
            number: f as u32,
        })?;
    }
    Ok(list)
}

/// Sorts by keys.
fn sort(list: &mut [Ranked])
    ensures { IsPermutation list.old list.new }
{
    list.sort_unstable_by_key(|ranked| ranked.key);
}

/// Returns the numbers.
fn numbers_of(alloc: Global, list: &[Ranked]) -> Result<Vec<u32>, NoMemory>
    ensures { IfOk result (λ numbers. numbers.items ≡ map face_number list.now) }
{
    let mut numbers = Vec::with_capacity(alloc, list.len())?;
    for ranked in list {
        numbers.push(ranked.number)?;
    }
    Ok(numbers)
}

/// Returns the numbers of all faces along the curve.
fn in_order(alloc: Global, points: &[Point], faces: &[[u32; 3]]) -> Result<Vec<u32>, NoMemory>
    requires { length faces.now < 2 ^ 32 }
    ensures { IfOk result (λ numbers. Covers (length faces.now) numbers.items) }
{
    let mut list = with_keys(alloc, points, faces)?;
    sort(&mut list);
    numbers_of(alloc, &list)
}

/// Returns the faces with these numbers.
fn faces_of(alloc: Global, faces: &[[u32; 3]], numbers: &[u32]) -> Result<Vec<[u32; 3]>, NoMemory>
    requires { All (λ i. i < length faces.now) numbers.now }
    ensures { IfOk result (λ list. list.items ≡ map (face_at faces.now) numbers.now) }
{
    let mut list = Vec::with_capacity(alloc, numbers.len())?;
    for number in numbers {
        list.push(faces[*number as usize])?;
    }
    Ok(list)
}

/// The faces of a mesh along a curve.
#[derive(Drop)]
pub struct FaceOrder {
    /// The numbers that they have in the mesh.
    pub numbers: Vec<u32>,
    /// The faces.
    pub faces: Vec<[u32; 3]>,
    /// A tree with the box of each, at its position in the order.
    pub tree: HullTree,
}

/// Returns the faces of a mesh along a curve, on which faces near each other are mostly near each other in space.
pub fn faces_in_order(alloc: Global, mesh: &Mesh) -> Result<FaceOrder, NoMemory>
    requires { IsMesh mesh.now.points.items mesh.now.faces.items }
    ensures { IfOk result (λ order. AreInOrder mesh.now.points.items mesh.now.faces.items order.numbers.items order.faces.items order.tree) }
{
    let numbers = in_order(alloc, &mesh.points, &mesh.faces)?;
    let faces = faces_of(alloc, &mesh.faces, &numbers)?;
    let tree = tree_of(alloc, &mesh.points, &faces)?;
    Ok(FaceOrder {
        numbers,
        faces,
        tree,
    })
}
