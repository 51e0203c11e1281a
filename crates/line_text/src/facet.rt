//! Reads vertex numbers at the start of a text, and the three that name a directed facet.

ghost use Rattle.std.specs.Prelude.{◌≡◌, ◌<◌, ◌++◌, IfSome, IfNone};
ghost use Rattle.line_text.specs.Numbers.{ended, BeginsWithNone};
ghost use Rattle.line_text.specs.Facets.{IsVertexNumber, ArePairNumbers, pair_fields, facet_fields};
ghost use Rattle.geo_sign.specs.Numbers.{IsFacetRow};

use crate::read::number_first;

/// Returns the vertex number at the start of a text, and the text after the byte that ends it, or `None` if there is no such
/// number.
pub fn vertex_first(text: &[u8], end: u8) -> Option<(u32, &[u8])>
    requires { end < 48 }
    ensures some { IfSome result (λ read. IsVertexNumber read.0 × (text.now ≡ ended read.0 end ++ read.1.now)) }
    ensures none { IfNone result (BeginsWithNone IsVertexNumber (λ n. ended n end) text.now) }
{
    let (n, rest) = number_first(text, end, 4_294_967_295)?;
    Some((n as u32, rest))
}

/// Returns two vertex numbers at the start of a text, with a space after the first, and the text after the byte that ends the
/// second, or `None` if there is no such pair.
pub fn pair_first(text: &[u8], end: u8) -> Option<((u32, u32), &[u8])>
    requires { end < 48 }
    ensures some { IfSome result (λ read. ArePairNumbers read.0 × (text.now ≡ pair_fields read.0 end ++ read.1.now)) }
    ensures none { IfNone result (BeginsWithNone ArePairNumbers (λ p. pair_fields p end) text.now) }
{
    let (a, rest) = vertex_first(text, b' ')?;
    let (b, rest) = vertex_first(rest, end)?;
    Some(((a, b), rest))
}

/// Returns a facet's three numbers at the start of a text, distinct with the smallest first, with a space after the first two,
/// and the text after the byte that ends the last, or `None` if there are no such numbers.
pub fn facet_first(text: &[u8], end: u8) -> Option<([u32; 3], &[u8])>
    requires { end < 48 }
    ensures some { IfSome result (λ read. IsFacetRow read.0 × (text.now ≡ facet_fields read.0 end ++ read.1.now)) }
    ensures none { IfNone result (BeginsWithNone IsFacetRow (λ f. facet_fields f end) text.now) }
{
    let (a, rest) = vertex_first(text, b' ')?;
    let ((b, c), rest) = pair_first(rest, end)?;
    if a < b && a < c && b != c {
        Some(([a, b, c], rest))
    } else {
        None
    }
}
