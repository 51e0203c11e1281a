//! Two faces with a common edge, by their four corners.

ghost use Rattle.std.specs.Prelude.{◌≡◌, ◌<◌, ◌/◌, ◌%◌, ℕ, IfSome};
ghost use Rattle.mesh_flips.specs.Turns.{IsCycled};
ghost use Rattle.mesh_flips.specs.Quads.{IsQuad};

/// The corners of two faces `a b c` and `b a d` with a common edge.
#[derive(Clone, Copy, Debug, PartialEq, Eq)]
pub struct Quad {
    /// The vertex from which the edge goes in the first face.
    pub a: u32,
    /// The vertex to which it goes.
    pub b: u32,
    /// The third corner of the first face.
    pub c: u32,
    /// The third corner of the second face.
    pub d: u32,
}

/// Returns the face written from this side on.
pub(crate) fn turned(face: [u32; 3], side: u32) -> [u32; 3]
    ensures { IsCycled face result }
{
    let [a, b, c] = face;
    if side == 0 {
        [a, b, c]
    } else if side == 1 {
        [b, c, a]
    } else {
        [c, a, b]
    }
}

/// Returns the corners of the faces at two half edges, where half edge `h` is side `h % 3` of face `h / 3`, or `None` unless the two
/// are opposite half edges of two faces with different third corners.
pub fn quad_at(faces: &[[u32; 3]], edge: u32, twin: u32) -> Option<Quad>
    ensures { IfSome result (λ q. IsQuad faces.now (edge / 3) (twin / 3) q) }
{
    let one = (edge / 3) as usize;
    let other = (twin / 3) as usize;
    if one >= faces.len() || other >= faces.len() || one == other {
        return None;
    }
    let [a, b, c] = turned(faces[one], edge % 3);
    let [from, to, d] = turned(faces[other], twin % 3);
    if from != b || to != a || c == d {
        return None;
    }
    Some(Quad { a, b, c, d })
}
