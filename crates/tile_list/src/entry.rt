//! The entries of the list, one for each line.

ghost use Rattle.std.specs.Prelude.{◌≡◌, ◌<◌, ◌++◌, ◌∷◌, List, ℕ, IfSome, IfNone};
ghost use Rattle.std.specs.Bool.{OnTrue, OnFalse};
ghost use Rattle.std.specs.List.{list_all};
ghost use Rattle.line_text.specs.Numbers.{signed_ended, BeginsWithNone};
ghost use Rattle.tile_list.specs.Entries.{axis_code, corner_fields, cut_line, entry_line, is_file_name_byte, tile_line, IsBoxedCorner, IsBoxedTile, IsCornerCoordinate, IsEntry, IsFileName};
ghost use Rattle.tile_list.specs.declared.entry.Axis.{Axis};
ghost use Rattle.tile_list.specs.declared.entry.Cut.{Cut};
ghost use Rattle.tile_list.specs.declared.entry.TileLine.{TileLine};

use geo_sign::BOX_LIMIT;
use line_text::{behind, cut_at, signed_first};

/// An axis of space.
#[derive(Clone, Copy, Debug, PartialEq, Eq)]
pub enum Axis {
    /// The first coordinate.
    X,
    /// The second coordinate.
    Y,
    /// The third coordinate.
    Z,
}

/// A plane that cuts a part of space.
#[derive(Clone, Copy, Debug)]
pub struct Cut {
    /// The axis that it is normal to.
    pub axis: Axis,
    /// Where it cuts this axis; points there are above.
    pub at: i64,
}

/// A corner of a core, in scaled units.
#[derive(Clone, Copy, Debug, PartialEq, Eq)]
pub struct Corner {
    /// The first coordinate.
    pub x: i64,
    /// The second coordinate.
    pub y: i64,
    /// The third coordinate.
    pub z: i64,
}

/// A tile.
#[derive(Clone, Copy, Debug)]
pub struct TileLine<'a> {
    /// The name of its mesh file.
    pub file: &'a str,
    /// The least coordinates of its core.
    pub low: Corner,
    /// The first coordinates beyond its core.
    pub high: Corner,
}

/// A line of the list.
#[derive(Clone, Copy, Debug)]
pub enum Entry<'a> {
    /// A cut.
    Cut(Cut),
    /// A tile.
    Tile(TileLine<'a>),
}

/// Returns a coordinate of the box at the start of a text, and the text after its end.
fn coordinate_first(text: &[u8], end: u8) -> Option<(i64, &[u8])>
    requires { end < 45 }
    ensures some { IfSome result (λ read. IsCornerCoordinate read.0 × (text.now ≡ signed_ended read.0 end ++ read.1.now)) }
    ensures none { IfNone result (BeginsWithNone IsCornerCoordinate (λ z. signed_ended z end) text.now) }
{
    signed_first(text, end, -(BOX_LIMIT as i64), BOX_LIMIT as i64)
}

/// Returns the corner of a core at the start of a text, and the text after its end.
fn corner_first(text: &[u8], end: u8) -> Option<(Corner, &[u8])>
    requires { end < 45 }
    ensures boxed { IfSome result (λ read. IsBoxedCorner read.0) }
    ensures text { IfSome result (λ read. text.now ≡ corner_fields read.0 end ++ read.1.now) }
    ensures none { IfNone result (BeginsWithNone IsBoxedCorner (λ p. corner_fields p end) text.now) }
{
    let (x, rest) = coordinate_first(text, b' ')?;
    let (y, rest) = coordinate_first(rest, b' ')?;
    let (z, rest) = coordinate_first(rest, end)?;
    Some((Corner { x, y, z }, rest))
}

/// Returns an axis at the start of a text, and the text after it.
fn axis_first(text: &[u8]) -> Option<(Axis, &[u8])>
    ensures some { IfSome result (λ read. text.now ≡ axis_code read.0 ∷ read.1.now) }
    ensures none { IfNone result ((axis : Axis) (rest : List ℕ) → ¬ (text.now ≡ axis_code axis ∷ rest)) }
{
    match text {
        [b'x', rest @ ..] => Some((Axis::X, rest)),
        [b'y', rest @ ..] => Some((Axis::Y, rest)),
        [b'z', rest @ ..] => Some((Axis::Z, rest)),
        _ => None,
    }
}

/// Returns the cut in the first line of a text, and the text after the line.
fn cut_first(text: &[u8]) -> Option<(Cut, &[u8])>
    ensures boxed { IfSome result (λ read. IsCornerCoordinate read.0.at) }
    ensures text { IfSome result (λ read. text.now ≡ cut_line read.0 ++ read.1.now) }
    ensures none { IfNone result (BeginsWithNone (λ (cut : Cut). IsCornerCoordinate cut.at) cut_line text.now) }
{
    let rest = behind(text, b"cut ")?;
    let (axis, rest) = axis_first(rest)?;
    let rest = behind(rest, b" ")?;
    let (at, rest) = coordinate_first(rest, b'\n')?;
    Some((Cut { axis, at }, rest))
}

fn is_name_byte(c: u8) -> bool
    ensures { result ≡ is_file_name_byte c }
{
    c.is_ascii_alphanumeric() || c == b'.' || c == b'_' || c == b'-'
}

fn are_name_bytes(name: &[u8]) -> bool
    ensures { result ≡ list_all is_file_name_byte name.now }
{
    name.iter().all(|c| is_name_byte(*c))
}

/// Returns whether a name may be that of a file beside the list.
fn is_file_name(name: &[u8]) -> bool
    ensures yes { OnTrue result (IsFileName name.now) }
    ensures no { OnFalse result (¬ IsFileName name.now) }
{
    if name.is_empty() || name.len() > 255 || name[0] == b'.' {
        return false;
    }
    are_name_bytes(name)
}

/// Returns the tile in the first line of a text, and the text after the line.
fn tile_first(text: &[u8]) -> Option<(TileLine<'_>, &[u8])>
    ensures named { IfSome result (λ read. IsFileName read.0.file.now) }
    ensures boxed { IfSome result (λ read. IsBoxedTile read.0) }
    ensures text { IfSome result (λ read. text.now ≡ tile_line read.0 ++ read.1.now) }
    ensures none { IfNone result (BeginsWithNone (λ (tile : TileLine). IsFileName tile.file.now × IsBoxedTile tile) tile_line text.now) }
{
    let rest = behind(text, b"tile ")?;
    let (file, rest) = cut_at(rest, b' ')?;
    if !is_file_name(file) {
        return None;
    }
    let file = match str::from_utf8(file) {
        Ok(file) => file,
        Err(_) => return None,
    };
    let (low, rest) = corner_first(rest, b' ')?;
    let (high, rest) = corner_first(rest, b'\n')?;
    Some((TileLine { file, low, high }, rest))
}

/// Returns the entry in the first line of a text, and the text after the line.
pub(crate) fn entry_first(text: &[u8]) -> Option<(Entry<'_>, &[u8])>
    ensures some { IfSome result (λ read. IsEntry read.0 × (text.now ≡ entry_line read.0 ++ read.1.now)) }
    ensures none { IfNone result (BeginsWithNone IsEntry entry_line text.now) }
{
    if let Some((cut, rest)) = cut_first(text) {
        return Some((Entry::Cut(cut), rest));
    }
    let (tile, rest) = tile_first(text)?;
    Some((Entry::Tile(tile), rest))
}
