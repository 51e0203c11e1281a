//! Half edges, and whether each has a twin.

ghost use Rattle.std.specs.Prelude.{◌≡◌, ◌*◌, ◌/◌, ◌<◌, ◌+◌, length};
ghost use Rattle.std.specs.Bool.{OnTrue, OnFalse};
ghost use Rattle.mesh_edges.specs.HalfEdges.{start, behind, IsTwin, ArePaired};

/// Returns the vertex at which a half edge begins.
pub fn start(faces: &[[u32; 3]], h: usize) -> u32
    requires { h < 3 * length faces.now }
    ensures { result ≡ start faces.now h }
{
    faces[h / 3][h % 3]
}

/// Returns the half edge after this one in its face.
pub fn behind(h: usize) -> usize
    requires { h + 1 < 18446744073709551616 }
    ensures { result ≡ behind h }
{
    if h % 3 == 2 { h - 2 } else { h + 1 }
}

/// Returns whether the twin of a half edge is another one, whose twin it is, and begins where it ends.
fn is_twin(faces: &[[u32; 3]], twins: &[u32], h: usize) -> bool
    requires count { length twins.now ≡ 3 * length faces.now }
    requires within { h < length twins.now }
    ensures yes { OnTrue result (IsTwin faces.now twins.now h) }
    ensures no { OnFalse result (¬ IsTwin faces.now twins.now h) }
{
    let twin = twins[h] as usize;
    if twin >= twins.len() || twin == h || twins[twin] as usize != h {
        return false;
    }
    start(faces, twin) == start(faces, behind(h))
}

/// Returns whether `twins[h]` is the twin of half edge `h`, for each half edge of the faces. Linear.
pub fn are_twins(faces: &[[u32; 3]], twins: &[u32]) -> bool
    ensures yes { OnTrue result (ArePaired faces.now twins.now) }
    ensures no { OnFalse result (¬ ArePaired faces.now twins.now) }
{
    if twins.len() % 3 != 0 || twins.len() / 3 != faces.len() {
        return false;
    }
    for h in 0..twins.len() {
        if !is_twin(faces, twins, h) {
            return false;
        }
    }
    true
}
