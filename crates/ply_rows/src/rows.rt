//! The reader of rows: it is between two rows of a body, and returns the next.

ghost use Rattle.std.specs.Prelude.{◌≡◌, ◌≤◌, ◌<◌, ◌+◌, ◌^◌, length, drop, take, slice_index_or, IfOk, IfSome};
ghost use Rattle.ply_head.specs.declared.header.Element.{Element};
ghost use Rattle.ply_head.specs.Readable.{IsReadable};
ghost use Rattle.ply_rows.specs.Rests.{Rest, rest_at};
ghost use Rattle.ply_rows.specs.Bodies.{rows_from, rows_of, ending, Ends};
ghost use Rattle.ply_rows.specs.Readers.{IsInside, EndsInside};

use crate::fields::read_fields;
use crate::place::{Field, RowAt};
use crate::refusal::RowRefusal;
use crate::tokens::next_token;
use ply_head::{Header, Kind};
use std::marker::Model;

/// A reader of the rows of a body, one after another.
///
/// Contracts see its header and its body, and the rows that are left with how they end.
#[derive(Drop)]
pub struct Rows<'a> {
    head: &'a Header,
    body: &'a [u8],
    // The current element, the number of its rows that were returned, and the offset after them.
    element: usize,
    row: u32,
    place: usize,
}

impl<'a> Model for Rows<'a> {
    ghost use Rattle.std.specs.Prelude.{◌≤◌, length, drop};
    ghost use Rattle.ply_head.specs.Readable.{IsReadable};
    ghost use Rattle.ply_rows.specs.Readers.{Reader};
    ghost use Rattle.ply_rows.specs.Rests.{rest_at};
    ghost use Rattle.ply_rows.specs.Bodies.{rows_from};

    ghost Value = { Reader };

    ghost view = { λ rows. record {
      head = rows.head.now;
      body = rows.body.now;
      left = rows_from (drop rows.element rows.head.now.elements) rows.element rows.row (rest_at rows.head.now.kind rows.body.now rows.place);
    } };

    ghost invariant = { λ rows. (rows.place ≤ length rows.body.now) × (rows.element ≤ length rows.head.now.elements) × IsReadable rows.head.now };
}

/// Returns the next element that has an unread row, and that row.
fn next_element(head: &Header, element: usize, row: u32) -> (usize, u32)
    requires { element ≤ length head.now.elements }
    ensures most { result.0 ≤ length head.now.elements }
    ensures same { (rest : Rest) → rows_from (drop result.0 head.now.elements) result.0 result.1 rest ≡ rows_from (drop element head.now.elements) element row rest }
    ensures room { result.0 < length head.now.elements → result.1 + 1 < 2 ^ 32 }
    ensures row { (d : Element) → result.0 < length head.now.elements → result.1 < (slice_index_or head.now.elements result.0 d).count }
    ensures properties { (d : Element) → result.0 < length head.now.elements → 0 < length (slice_index_or head.now.elements result.0 d).properties }
{
    let elements = head.elements.as_slice();
    let mut row = row;
    for i in element..elements.len() {
        let next = &elements[i];
        if row < next.count && !next.properties.as_slice().is_empty() {
            return (i, row);
        }
        row = 0;
    }
    (elements.len(), row)
}

/// Checks that nothing follows the last row.
fn end_of_rows(kind: Kind, body: &[u8], place: usize) -> Result<(), RowRefusal>
    requires { place ≤ length body.now }
    ensures ends { Ends result (ending (rest_at kind body.now place)) }
    ensures inside { EndsInside body.now result }
{
    match kind {
        Kind::Ascii => match next_token(body, place) {
            None => Ok(()),
            Some((start, _)) => Err(RowRefusal::Trailing { place: start }),
        },
        Kind::BinaryLittle | Kind::BinaryBig => match &body[place..] {
            [] => Ok(()),
            [_, ..] => Err(RowRefusal::Trailing { place }),
        },
    }
}

impl<'a> Rows<'a> {
    ghost use Rattle.ply_rows.specs.Readers.{NextRow, AreRowFields};

    /// Returns a reader before the first row of a body with this header.
    pub fn new(head: &'a Header, body: &'a [u8]) -> Rows<'a>
        requires { IsReadable head.now }
        ensures head { result.head ≡ head.now }
        ensures body { result.body ≡ body.now }
        ensures left { result.left ≡ rows_of head.now body.now }
    {
        Rows {
            head,
            body,
            element: 0,
            row: 0,
            place: 0,
        }
    }

    /// Reads the next row: `out` gets one field for each property, in order, and nothing else.
    ///
    /// Returns `None` if all rows were read and nothing but white space (in a binary body nothing) follows. After `None` and
    /// after an error `out` is empty and the reader is unchanged, so that the next call has the same result unless memory runs
    /// out.
    pub fn next_row(&mut self, out: &mut Vec<Field>) -> Result<Option<RowAt>, RowRefusal>
        ensures next { NextRow result out.new.items self.old self.new }
        ensures row { IfOk result (λ found. IfSome found (λ at. AreRowFields self.old.head self.old.body at out.new.items)) }
        ensures inside { EndsInside self.old.body result }
    {
        out.clear();
        let (element, row) = next_element(self.head, self.element, self.row);
        let elements = self.head.elements.as_slice();
        if element == elements.len() {
            return match end_of_rows(self.head.kind, self.body, self.place) {
                Ok(()) => Ok(None),
                Err(why) => Err(why),
            };
        }
        let at = RowAt {
            element: element as u32,
            row,
        };
        let properties = elements[element].properties.as_slice();
        match read_fields(self.head.kind, self.body, out, at, properties, self.place) {
            Ok(place) => {
                self.element = element;
                self.row = row + 1;
                self.place = place;
                Ok(Some(at))
            }
            Err(why) => {
                out.clear();
                Err(why)
            }
        }
    }

    /// Returns the bytes of a field.
    pub fn bytes(&self, field: Field) -> &'a [u8]
        requires { IsInside self.now.body field }
        ensures { result.now ≡ take field.size (drop field.place self.now.body) }
    {
        &self.body[field.place..field.place + field.size]
    }
}
