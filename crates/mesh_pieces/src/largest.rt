//! The largest pieces. They are sorted by their sizes, of equal ones those with the smaller first face first.

ghost use Rattle.std.specs.Prelude.{◌≡◌, ◌+◌, ◌<◌, ◌≤◌, ◌⊎◌, ℕ, IfOk, OnOk, length, slice_index, slice_index_or, true, false};
ghost use Rattle.std.specs.List.Sorted.{IsPermutation, IsNonDecreasingBy};
ghost use Rattle.mesh_edges.specs.Things.{AreSoMany};
ghost use Rattle.mesh_edges.specs.Pairs.{key_of_pair};
ghost use Rattle.mesh_edges.specs.HalfEdges.{ArePaired};
ghost use Rattle.mesh_pieces.specs.Pieces.{IsUnion, AreLargestPieces};
ghost use Rattle.mesh_pieces.specs.Chosen.{AreFirstFaces, AreSizes, ArePieceKeys, AreFirstMarked, piece_in};

use crate::NoMemory;
use crate::connected::first_faces;
use mesh_edges::Pair;
use std::alloc::Global;

/// Returns how many faces have each face as the first of their piece.
fn sizes_of(alloc: Global, firsts: &[usize]) -> Result<Vec<usize>, NoMemory>
    requires { (k : ℕ) → k < length firsts.now → slice_index firsts.now k < length firsts.now }
    ensures { IfOk result (λ sizes. AreSizes firsts.now sizes.items (length firsts.now)) }
{
    let mut sizes = vec![in alloc; 0usize; firsts.len()]?;
    for k in 0..firsts.len() {
        let f = firsts[k];
        sizes[f] = sizes[f] + 1;
    }
    Ok(sizes)
}

/// Appends a face if it is the first of its piece, with the number of faces that are not of it.
fn push_piece(
    list: &mut Vec<Pair>,
    firsts: &[usize],
    sizes: &[usize],
    f: u32,
) -> Result<(), NoMemory>
    requires within { f < length firsts.now }
    requires few { length firsts.now ≤ 4294967295 }
    requires sizes { AreSizes firsts.now sizes.now (length firsts.now) }
    requires list { ArePieceKeys firsts.now sizes.now f list.old.items }
    ensures { OnOk result (ArePieceKeys firsts.now sizes.now (f + 1) list.new.items) }
{
    if firsts[f as usize] == f as usize {
        let lacks = (firsts.len() - sizes[f as usize]) as u32;
        list.push(Pair {
            first: lacks,
            second: f,
        })?;
    }
    Ok(())
}

/// Returns the pieces.
fn pieces_of(alloc: Global, firsts: &[usize], sizes: &[usize]) -> Result<Vec<Pair>, NoMemory>
    requires few { length firsts.now ≤ 4294967295 }
    requires sizes { AreSizes firsts.now sizes.now (length firsts.now) }
    ensures { IfOk result (λ list. ArePieceKeys firsts.now sizes.now (length firsts.now) list.items) }
{
    let mut list = Vec::new(alloc);
    for f in 0..firsts.len() {
        push_piece(&mut list, firsts, sizes, f as u32)?;
    }
    Ok(list)
}

/// Sorts pieces, the largest first.
fn sort(pieces: &mut [Pair])
    ensures moved { IsPermutation pieces.old pieces.new }
    ensures sorted { IsNonDecreasingBy key_of_pair pieces.new }
{
    pieces.sort_unstable_by_key(|piece| piece.key());
}

/// Returns the pieces, the largest first.
fn sorted_pieces(alloc: Global, firsts: &[usize], sizes: &[usize]) -> Result<Vec<Pair>, NoMemory>
    requires few { length firsts.now ≤ 4294967295 }
    requires sizes { AreSizes firsts.now sizes.now (length firsts.now) }
    ensures pieces { IfOk result (λ list. ArePieceKeys firsts.now sizes.now (length firsts.now) list.items) }
    ensures sorted { IfOk result (λ list. IsNonDecreasingBy key_of_pair list.items) }
{
    let mut list = pieces_of(alloc, firsts, sizes)?;
    sort(&mut list);
    Ok(list)
}

/// Marks a face, and returns how many are marked.
fn mark(marks: &mut [bool], f: u32, number: usize) -> usize
    requires within { f < length marks.old }
    requires many { AreSoMany (λ g. slice_index_or marks.old g false ≡ true) number }
    requires few { number < 4294967295 }
    ensures here { slice_index_or marks.new f false ≡ true }
    ensures kept { (g : ℕ) → slice_index_or marks.old g false ≡ true → slice_index_or marks.new g false ≡ true }
    ensures only { (g : ℕ) → slice_index_or marks.new g false ≡ true → (slice_index_or marks.old g false ≡ true) ⊎ (f ≡ g) }
    ensures many { AreSoMany (λ g. slice_index_or marks.new g false ≡ true) result }
    ensures more { result ≤ number + 1 }
    ensures count { length marks.new ≡ length marks.old }
{
    if marks[f as usize] {
        return number;
    }
    marks[f as usize] = true;
    number + 1
}

/// Returns a piece by its index.
fn piece_at(list: &[Pair], at: usize) -> Pair
    requires { at < length list.now }
    ensures { result ≡ piece_in list.now at }
{
    list[at]
}

/// Marks the first faces of the first pieces of a list, and returns how many are marked.
fn mark_first(marks: &mut [bool], list: &[Pair], most: u32) -> usize
    requires within { (j : ℕ) → j < length list.now → (piece_in list.now j).second < length marks.old }
    requires none { (g : ℕ) → slice_index_or marks.old g false ≡ true → ⊥ }
    ensures marked { AreFirstMarked list.now marks.new result most }
    ensures count { length marks.new ≡ length marks.old }
{
    let mut number = 0usize;
    for i in 0..list.len() {
        if number >= most as usize {
            return number;
        }
        number = mark(marks, piece_at(list, i).second, number);
    }
    number
}

/// Returns the mark of the first face of the piece of each face.
fn spread(alloc: Global, firsts: &[usize], marks: &[bool]) -> Result<Vec<bool>, NoMemory>
    requires count { length marks.now ≡ length firsts.now }
    requires within { (k : ℕ) → k < length firsts.now → slice_index firsts.now k < length firsts.now }
    ensures count { IfOk result (λ kept. length kept.items ≡ length firsts.now) }
    ensures kept { IfOk result (λ kept. (f : ℕ) → f < length firsts.now → slice_index_or kept.items f false ≡ slice_index_or marks.now (slice_index firsts.now f) false) }
{
    let mut kept = Vec::with_capacity(alloc, firsts.len())?;
    for k in 0..firsts.len() {
        kept.push(marks[firsts[k]])?;
    }
    Ok(kept)
}

/// Returns for each face whether its piece is one of the largest.
pub(crate) fn marks_of_largest(
    alloc: Global,
    faces: &[[u32; 3]],
    twins: &[u32],
    most: u32,
) -> Result<Vec<bool>, NoMemory>
    requires few { length faces.now ≤ 4294967295 }
    requires paired { ArePaired faces.now twins.now }
    ensures union { IfOk result (λ kept. IsUnion twins.now kept.items) }
    ensures largest { IfOk result (λ kept. AreLargestPieces twins.now (length faces.now) kept.items most) }
{
    let firsts = first_faces(alloc, faces, twins)?;
    let sizes = sizes_of(alloc, &firsts)?;
    let list = sorted_pieces(alloc, &firsts, &sizes)?;
    let mut marks = vec![in alloc; false; firsts.len()]?;
    mark_first(&mut marks, &list, most);
    let kept = spread(alloc, &firsts, &marks)?;
    Ok(kept)
}
