//! The fields of a text: tokens counted property by property.

ghost use Rattle.std.specs.Prelude.{◌≤◌, length, IfOk};
ghost use Rattle.num_text.specs.WholeNumbers.{whole_of};
ghost use Rattle.ply_rows.specs.Tokens.{tokens_at};
ghost use Rattle.ply_rows.specs.Texts.{Gives, count_in, count_or_refusal, items_of, items_end, text_field};
ghost use Rattle.ply_head.specs.declared.header.Kind.TheVariants.{Ascii};
ghost use Rattle.ply_rows.specs.Readers.{IsInside, HasTokens};

use crate::place::{Field, Place};
use crate::refusal::RowRefusal;
use crate::tokens::next_token;
use num_text::whole;
use ply_head::Shape;

/// The maximal number of items in a list.
const ITEMS_LIMIT: i64 = 4_294_967_295;

/// Returns a number of items, if it is valid.
pub(crate) fn count_of_number(number: i64, at: Place) -> Result<u32, RowRefusal>
    ensures { Gives (λ count. count) result (count_in at number) }
{
    if number < 0 || number > ITEMS_LIMIT {
        return Err(RowRefusal::BadCount(at));
    }
    Ok(number as u32)
}

/// Returns the number of items that a token states.
fn count_in_token(token: &[u8], at: Place) -> Result<u32, RowRefusal>
    ensures { Gives (λ count. count) result (count_or_refusal at (whole_of token.now)) }
{
    match whole(token) {
        Err(_) => Err(RowRefusal::BadCount(at)),
        Ok(number) => count_of_number(number, at),
    }
}

/// Returns the end of the next tokens, of this number.
fn end_of_items(body: &[u8], at: Place, more: u32, place: usize) -> Result<usize, RowRefusal>
    requires { place ≤ length body.now }
    ensures least { IfOk result (λ end. place ≤ end) }
    ensures most { IfOk result (λ end. end ≤ length body.now) }
    ensures items { Gives (λ end. (end, tokens_at body.now end)) result (items_end at more place (tokens_at body.now place)) }
{
    let mut end = place;
    for _ in 0..more {
        match next_token(body, end) {
            None => return Err(RowRefusal::Cut(at)),
            Some((_, behind)) => end = behind,
        }
    }
    Ok(end)
}

/// Returns the items of a list, and the offset after them.
fn read_items(
    body: &[u8],
    at: Place,
    count: u32,
    place: usize,
) -> Result<(Field, usize), RowRefusal>
    requires { place ≤ length body.now }
    ensures most { IfOk result (λ read. read.1 ≤ length body.now) }
    ensures inside { IfOk result (λ read. IsInside body.now read.0) }
    ensures there { IfOk result (λ read. read.0.items ≤ length (tokens_at body.now read.0.place)) }
    ensures items { Gives (λ read. (read.0, tokens_at body.now read.1)) result (items_of at count (tokens_at body.now place)) }
{
    if count == 0 {
        let none = Field {
            place: 0,
            size: 0,
            items: 0,
        };
        return Ok((none, place));
    }
    match next_token(body, place) {
        None => Err(RowRefusal::Cut(at)),
        Some((first, behind)) => {
            let end = end_of_items(body, at, count - 1, behind)?;
            let field = Field {
                place: first,
                size: end - first,
                items: count,
            };
            Ok((field, end))
        }
    }
}

/// Returns the field of a property in a text, and the offset after it.
#[tactic(auto, unfolding(crate::specs::Texts::text_field))]
pub(crate) fn read_text_field(
    body: &[u8],
    at: Place,
    shape: Shape,
    place: usize,
) -> Result<(Field, usize), RowRefusal>
    requires { place ≤ length body.now }
    ensures most { IfOk result (λ read. read.1 ≤ length body.now) }
    ensures inside { IfOk result (λ read. IsInside body.now read.0) }
    ensures tokens { IfOk result (λ read. HasTokens Ascii body.now shape read.0) }
    ensures field { Gives (λ read. (read.0, tokens_at body.now read.1)) result (text_field at shape (tokens_at body.now place)) }
{
    match next_token(body, place) {
        None => Err(RowRefusal::Cut(at)),
        Some((start, end)) => match shape {
            Shape::One(_) => {
                let field = Field {
                    place: start,
                    size: end - start,
                    items: 1,
                };
                Ok((field, end))
            }
            Shape::Many { .. } => {
                let count = count_in_token(&body[start..end], at)?;
                read_items(body, at, count, end)
            }
        },
    }
}
