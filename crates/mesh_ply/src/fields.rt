//! Reads the lines of a mesh's points and faces at the start of a text. Depends on `line_text` and on the points of `geo_sign`.

ghost use Rattle.std.specs.Prelude.{◌≡◌, ◌<◌, ◌^◌, ◌++◌, IfSome, IfNone};
ghost use Rattle.std.specs.Bool.{OnTrue, OnFalse};
ghost use Rattle.geo_sign.specs.Point.{IsWithin};
ghost use Rattle.line_text.specs.Numbers.{signed_ended, BeginsWithNone};
ghost use Rattle.geo_sign.specs.Numbers.{IsFacetRow};
ghost use Rattle.mesh.specs.Meshes.{IsFace};
ghost use Rattle.mesh_ply.specs.Texts.{IsCoordinate, point_line, face_line};
ghost use Rattle.geo_sign.specs.declared.point.TheConstants.{BOX_LIMIT};

use geo_sign::{BOX_LIMIT, Point};
use line_text::{behind, facet_first, signed_first};

/// Returns a coordinate of the box, and the text after its end.
fn coordinate_first(text: &[u8], end: u8) -> Option<(i64, &[u8])>
    requires { end < 45 }
    ensures some { IfSome result (λ read. IsCoordinate read.0 × (text.now ≡ signed_ended read.0 end ++ read.1.now)) }
    ensures none { IfNone result (BeginsWithNone IsCoordinate (λ z. signed_ended z end) text.now) }
{
    signed_first(text, end, -(BOX_LIMIT as i64), BOX_LIMIT as i64)
}

/// Returns the line of a point of the box.
pub fn point_first(text: &[u8]) -> Option<(Point, &[u8])>
    ensures some { IfSome result (λ read. IsWithin BOX_LIMIT read.0 × (text.now ≡ point_line read.0 ++ read.1.now)) }
    ensures none { IfNone result (BeginsWithNone (IsWithin BOX_LIMIT) point_line text.now) }
{
    let (x, rest) = coordinate_first(text, b' ')?;
    let (y, rest) = coordinate_first(rest, b' ')?;
    let (z, rest) = coordinate_first(rest, b'\n')?;
    let point = Point::in_box(x, y, z)?;
    Some((point, rest))
}

/// Returns whether a facet's numbers are indices below `count`.
fn is_among(facet: [u32; 3], count: u64) -> bool
    requires { IsFacetRow facet }
    ensures yes { OnTrue result (IsFace count facet) }
    ensures no { OnFalse result (¬ IsFace count facet) }
{
    let [_, b, c] = facet;
    u64::from(b) < count && u64::from(c) < count
}

/// Returns the line of a face among `count` points.
pub fn face_first(text: &[u8], count: u64) -> Option<([u32; 3], &[u8])>
    requires { count < 2 ^ 32 }
    ensures some { IfSome result (λ read. IsFace count read.0 × (text.now ≡ face_line read.0 ++ read.1.now)) }
    ensures none { IfNone result (BeginsWithNone (IsFace count) face_line text.now) }
{
    let rest = behind(text, b"3 ")?;
    let (face, rest) = facet_first(rest, b'\n')?;
    if is_among(face, count) {
        Some((face, rest))
    } else {
        None
    }
}
