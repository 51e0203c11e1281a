//! Sides of cells: side k is that of the facet opposite to vertex k.

ghost use Rattle.std.specs.Prelude.{◌≡◌, ◌<◌};
ghost use Rattle.geo_sign.specs.Tetrahedron.{facet_of, facet_at};
ghost use Rattle.tetra_store.specs.Links.{tetrahedron_from};

/// Returns the directed facet of a side of the cell with these vertices: three vertex numbers, counterclockwise as seen from
/// the vertex opposite to the side if the cell is positively oriented.
pub fn facet(v: [u32; 4], side: usize) -> [u32; 3]
    requires { side < 4 }
    ensures { facet_at result ≡ facet_of (tetrahedron_from v) side }
{
    let [a, b, c, d] = v;
    match side {
        0 => [b, d, c],
        1 => [a, c, d],
        2 => [a, d, b],
        _ => [a, b, c],
    }
}
