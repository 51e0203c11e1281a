//! The fields of a row, in text or in binary.

ghost use Rattle.std.specs.Prelude.{◌≡◌, ◌≤◌, [], length, All, IfOk};
ghost use Rattle.ply_head.specs.Readable.{HasWholeCount, IsReadableProperty};
ghost use Rattle.ply_rows.specs.Texts.{Gives};
ghost use Rattle.ply_rows.specs.Rests.{rest_at, field_of, fields_of};
ghost use Rattle.ply_rows.specs.Readers.{IsFieldOf, AreFieldsOf};

use crate::binary::read_binary_field;
use crate::place::{Field, Place, RowAt};
use crate::refusal::RowRefusal;
use crate::text::read_text_field;
use ply_head::{Endian, Kind, Property, Shape};

/// Returns the field of a property, and the offset after it.
#[tactic(auto, unfolding(crate::specs::Rests::field_of))]
fn read_field(
    kind: Kind,
    body: &[u8],
    at: Place,
    shape: Shape,
    place: usize,
) -> Result<(Field, usize), RowRefusal>
    requires place { place ≤ length body.now }
    requires count { HasWholeCount shape }
    ensures most { IfOk result (λ read. read.1 ≤ length body.now) }
    ensures fits { IfOk result (λ read. IsFieldOf kind body.now shape read.0) }
    ensures field { Gives (λ read. (read.0, rest_at kind body.now read.1)) result (field_of at shape (rest_at kind body.now place)) }
{
    match kind {
        Kind::Ascii => read_text_field(body, at, shape, place),
        Kind::BinaryLittle => read_binary_field(Endian::Little, body, at, shape, place),
        Kind::BinaryBig => read_binary_field(Endian::Big, body, at, shape, place),
    }
}

/// Appends the fields of a row to `out`, and returns the offset after them.
pub(crate) fn read_fields(
    kind: Kind,
    body: &[u8],
    out: &mut Vec<Field>,
    row: RowAt,
    properties: &[Property],
    place: usize,
) -> Result<usize, RowRefusal>
    requires place { place ≤ length body.now }
    requires few { length properties.now ≤ 1000 }
    requires readable { All IsReadableProperty properties.now }
    requires out { out.old.items ≡ [] }
    ensures most { IfOk result (λ end. end ≤ length body.now) }
    ensures fits { IfOk result (λ end. AreFieldsOf kind body.now properties.now out.new.items) }
    ensures fields { Gives (λ end. (out.new.items, rest_at kind body.now end)) result (fields_of row.element row.row 0 properties.now (rest_at kind body.now place)) }
{
    let mut end = place;
    for (i, property) in properties.iter().enumerate() {
        let at = Place {
            element: row.element,
            row: row.row,
            property: i as u32,
        };
        let (field, behind) = read_field(kind, body, at, property.shape, end)?;
        out.push(field)?;
        end = behind;
    }
    Ok(end)
}
