//! The flip of one edge.

ghost use Rattle.std.specs.Prelude.{◌≡◌};
ghost use Rattle.mesh_flips.specs.Quads.{IsQuad, flipped};

use crate::Quad;

/// Flips the edge between two faces: `a b c` and `b a d` become `a d c` and `d b c`.
pub fn flip(faces: &mut [[u32; 3]], one: usize, other: usize, quad: Quad)
    requires { IsQuad faces.old one other quad }
    ensures { faces.new ≡ flipped faces.old one other quad }
{
    faces[one] = [quad.a, quad.d, quad.c];
    faces[other] = [quad.d, quad.b, quad.c];
}
