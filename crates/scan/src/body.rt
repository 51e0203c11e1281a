//! A body after its header, and a row of it. Depends on the headers of `ply_head` and the fields of `ply_rows`.

ghost use Rattle.std.specs.Prelude.{◌≤◌};
ghost use Rattle.num_text.specs.declared.decimal.TheConstants.{UNIT_LIMIT};

use ply_head::Header;
use ply_rows::{Field, RowAt};

/// A body: the header before it, its bytes, and the scale.
#[derive(Clone, Copy)]
pub(crate) struct Body<'a> {
    pub head: &'a Header,
    pub bytes: &'a [u8],
    pub unit: u32,
    pub ghost at_least_one: { 1 ≤ unit },
    pub ghost at_most_a_million: { unit ≤ UNIT_LIMIT },
}

/// A row of a body: its position, and the fields of its properties.
#[derive(Clone, Copy)]
pub(crate) struct Row<'a> {
    pub body: Body<'a>,
    pub at: RowAt,
    pub fields: &'a [Field],
}
