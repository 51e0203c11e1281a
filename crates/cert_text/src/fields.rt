//! Prints the fields of rows (a cell's numbers, a facet's, an amount), and reads them at the start of a text. Depends on
//! `line_text`.

ghost use Rattle.std.specs.Prelude.{◌≡◌, ◌<◌, ◌++◌, [], ◌∷◌, IfSome, IfNone, OnOk, OnErr, length, take};
ghost use Rattle.line_text.specs.Numbers.{space, line_feed, ended, BeginsWithNone};
ghost use Rattle.line_text.specs.Facets.{facet_fields};
ghost use Rattle.certificate.specs.Rows.{IsCellRow, IsAmount};
ghost use Rattle.cert_text.specs.Texts.{cell_fields};

use crate::NoMemory;
use line_text::{number_within, pair_first, push_number};

/// Returns a cell's four ascending numbers.
pub fn cell_first(text: &[u8], end: u8) -> Option<([u32; 4], &[u8])>
    requires { end < 48 }
    ensures some { IfSome result (λ read. IsCellRow read.0 × (text.now ≡ cell_fields read.0 end ++ read.1.now)) }
    ensures none { IfNone result (BeginsWithNone IsCellRow (λ c. cell_fields c end) text.now) }
{
    let ((a, b), rest) = pair_first(text, b' ')?;
    let ((c, d), rest) = pair_first(rest, end)?;
    if a < b && b < c && c < d {
        Some(([a, b, c, d], rest))
    } else {
        None
    }
}

/// Returns an amount of at least 1, and the end of its line.
pub fn amount_first(text: &[u8]) -> Option<(u64, &[u8])>
    ensures some { IfSome result (λ read. IsAmount read.0 × (text.now ≡ ended read.0 line_feed ++ read.1.now)) }
    ensures none { IfNone result (BeginsWithNone IsAmount (λ n. ended n line_feed) text.now) }
{
    number_within(text, b'\n', 1, u64::MAX)
}

/// Appends four numbers, and a byte after the last.
fn push_four(out: &mut Vec<u8>, a: u32, b: u32, c: u32, d: u32, end: u8) -> Result<(), NoMemory>
    ensures ok { OnOk result (out.new.items ≡ out.old.items ++ cell_fields (a ∷ b ∷ c ∷ d ∷ []) end) }
    ensures kept { OnErr result (take (length out.old.items) out.new.items ≡ out.old.items) }
{
    push_number(out, u64::from(a), b' ')?;
    push_number(out, u64::from(b), b' ')?;
    push_number(out, u64::from(c), b' ')?;
    push_number(out, u64::from(d), end)?;
    Ok(())
}

/// Appends a cell's numbers, and a byte after the last.
pub fn push_cell(out: &mut Vec<u8>, cell: [u32; 4], end: u8) -> Result<(), NoMemory>
    ensures ok { OnOk result (out.new.items ≡ out.old.items ++ cell_fields cell end) }
    ensures kept { OnErr result (take (length out.old.items) out.new.items ≡ out.old.items) }
{
    let [a, b, c, d] = cell;
    push_four(out, a, b, c, d, end)
}

/// Appends three numbers, and a space after each.
fn push_three(out: &mut Vec<u8>, a: u32, b: u32, c: u32) -> Result<(), NoMemory>
    ensures ok { OnOk result (out.new.items ≡ out.old.items ++ facet_fields (a ∷ b ∷ c ∷ []) space) }
    ensures kept { OnErr result (take (length out.old.items) out.new.items ≡ out.old.items) }
{
    push_number(out, u64::from(a), b' ')?;
    push_number(out, u64::from(b), b' ')?;
    push_number(out, u64::from(c), b' ')?;
    Ok(())
}

/// Appends a facet's numbers, and a space after each.
pub fn push_facet(out: &mut Vec<u8>, facet: [u32; 3]) -> Result<(), NoMemory>
    ensures ok { OnOk result (out.new.items ≡ out.old.items ++ facet_fields facet space) }
    ensures kept { OnErr result (take (length out.old.items) out.new.items ≡ out.old.items) }
{
    let [a, b, c] = facet;
    push_three(out, a, b, c)
}
