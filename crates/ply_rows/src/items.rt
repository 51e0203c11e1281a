//! Iterates over the items of a list: tokens in a text, values of a size in a binary body.

ghost use Rattle.std.specs.Prelude.{◌≡◌, ◌≤◌, ◌<◌, ◌-◌, ◌∷◌, length};
ghost use Rattle.ply_rows.specs.Items.{items_from, HasItems, IsValueOf};

use crate::binary::size;
use crate::tokens::next_token;
use ply_head::{Kind, Scalar};

/// Returns the bytes of the first of several consecutive items from an offset of a body on, and the offset after it.
///
/// To iterate over a list, start at its field's offset and call this once for each of the field's items. In a text an item is a
/// token, in a binary body a value of its type. The iteration examines each byte a fixed number of times.
pub fn first_item(kind: Kind, item: Scalar, body: &[u8], place: usize, items: u32) -> (&[u8], usize)
    requires some { 0 < items }
    requires place { place ≤ length body.now }
    requires there { HasItems kind item body.now place items }
    ensures most { result.1 ≤ length body.now }
    ensures there { HasItems kind item body.now result.1 (items - 1) }
    ensures first { items_from kind item body.now place items ≡ result.0.now ∷ items_from kind item body.now result.1 (items - 1) }
    ensures size { IsValueOf kind item result.0.now }
{
    match kind {
        Kind::Ascii => match next_token(body, place) {
            None => unreachable!(),
            Some((start, end)) => (&body[start..end], end),
        },
        Kind::BinaryLittle => {
            let end = place + size(item);
            (&body[place..end], end)
        }
        Kind::BinaryBig => {
            let end = place + size(item);
            (&body[place..end], end)
        }
    }
}
