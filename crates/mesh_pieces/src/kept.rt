//! The faces that marks keep, and the vertices that they have.

ghost use Rattle.std.specs.Prelude.{◌≡◌, ◌<◌, ◌≤◌, ◌/◌, ◌++◌, ℕ, [], ◌∷◌, false, IfOk, OnOk, length, slice_index, slice_index_or, if◌then◌else◌};
ghost use Rattle.std.specs.Bool.{OnTrue};
ghost use Rattle.mesh_pieces.specs.Copies.{IsCornerOf};
ghost use Rattle.mesh_pieces.specs.Pieces.{kept_faces};

use crate::NoMemory;
use std::alloc::Global;

/// Returns the mark of a face, and `false` past the last.
fn is_kept(kept: &[bool], face: usize) -> bool
    ensures { result ≡ slice_index_or kept.now face false }
{
    face < kept.len() && kept[face]
}

/// Appends a face if it is marked.
fn push_if(list: &mut Vec<[u32; 3]>, face: [u32; 3], is_kept: bool) -> Result<(), NoMemory>
    ensures { OnOk result (list.new.items ≡ list.old.items ++ (if is_kept then face ∷ [] else [])) }
{
    if is_kept {
        list.push(face)?;
    }
    Ok(())
}

/// Returns the marked faces, in their order.
pub(crate) fn marked_faces(
    alloc: Global,
    faces: &[[u32; 3]],
    kept: &[bool],
) -> Result<Vec<[u32; 3]>, NoMemory>
    ensures list { IfOk result (λ list. list.items ≡ kept_faces faces.now kept.now) }
    ensures few { IfOk result (λ list. length list.items ≤ length faces.now) }
{
    let mut list = Vec::new(alloc);
    for f in 0..faces.len() {
        push_if(&mut list, faces[f], is_kept(kept, f))?;
    }
    Ok(list)
}

/// Returns whether face number `f` has the vertex `w`.
fn is_corner_of(faces: &[[u32; 3]], w: u32, f: usize) -> bool
    ensures { OnTrue result (IsCornerOf faces.now w f) }
{
    if f >= faces.len() {
        return false;
    }
    let [a, b, c] = faces[f];
    a == w || b == w || c == w
}

/// Returns whether `holder[w]` is a face that has the vertex `w`, for each of `count` vertices.
pub(crate) fn are_used(faces: &[[u32; 3]], holder: &[u32], count: usize) -> bool
    requires { count ≤ 4294967296 }
    ensures { OnTrue result ((w : ℕ) → w < count → (f : ℕ) × IsCornerOf faces.now w f) }
{
    if holder.len() != count {
        return false;
    }
    for w in 0..count {
        if !is_corner_of(faces, w as u32, holder[w] as usize) {
            return false;
        }
    }
    true
}
