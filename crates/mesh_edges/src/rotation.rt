//! Half edges around a vertex.

ghost use Rattle.std.specs.Prelude.{◌≡◌, ◌<◌, ◌+◌, ◌%◌, length, slice_index};
ghost use Rattle.mesh_edges.specs.HalfEdges.{ahead, around, behind};

use crate::twins::behind;

/// Returns the half edge before this one in its face.
pub fn ahead(h: usize) -> usize
    requires { h + 2 < 18446744073709551616 }
    ensures { result ≡ ahead h }
{
    if h % 3 == 0 { h + 2 } else { h - 1 }
}

/// Returns the half edge after this one around the vertex at which both begin: the twin of the one before it in its face.
pub fn around(twins: &[u32], h: usize) -> usize
    requires whole { length twins.now % 3 ≡ 0 }
    requires within { h < length twins.now }
    ensures { result ≡ around twins.now h }
{
    twins[ahead(h)] as usize
}

/// Returns the label of the half edge after this one in its face, which begins at its other end.
pub(crate) fn far_label(labels: &[u32], h: usize) -> u32
    requires whole { length labels.now % 3 ≡ 0 }
    requires within { h < length labels.now }
    ensures { result ≡ slice_index labels.now (behind h) }
{
    labels[behind(h)]
}
