//! Conflict of a vertex with a cell, ties broken by the vertices' numbers.
//!
//! A vertex with number i has the height (x^2 + y^2 + z^2) B^n + B^i with B = 2^80 and n above all numbers. So the power of p
//! with respect to a cell is B^n times the unperturbed power, plus five terms: a power of B for each of the five numbers, times
//! an orientation below 2^75. The unperturbed power decides unless it is zero; then the greatest number with a nonzero
//! orientation does. No large number is computed.

ghost use Rattle.std.specs.Prelude.{◌≡◌, ◌<ℤ◌, ◌↔◌, pos, ℕ, IsTrue, IsFalse};
ghost use Rattle.geo_sign.specs.Orientation.{orientation};
ghost use Rattle.geo_sign.specs.Tie.{tied_power};
ghost use Rattle.geo_sign.specs.Conflict.{OfFour, AreApart, AreBelow};
ghost use Rattle.geo_sign.specs.Terms.{leading_term, is_below_zero, term, deciding_term};

use geo_sign::{Point, Sign, in_sphere, orient};
use std::marker::Model;

/// A power of the base by its exponent, with the sign of its coefficient.
#[derive(Clone, Copy)]
struct Term {
    number: u32,
    sign: Sign,
}

impl Model for Term {
    ghost use Rattle.geo_sign.specs.Terms.{Term};

    ghost Value = { Term };

    ghost view = { λ t. record { number = t.number; sign = t.sign } };

    ghost inverse = { λ t. record { number = t.number; sign = t.sign } };
}

/// Returns the leading term: either this leader or the term with this number, whose coefficient is the orientation of a, b, c,
/// d. Computes that orientation only if the number is the greater one.
fn leading(leader: Term, number: u32, a: Point, b: Point, c: Point, d: Point) -> Term
    ensures { result ≡ leading_term leader (term number (orientation a b c d)) }
{
    if number <= leader.number {
        return leader;
    }
    match orient(a, b, c, d) {
        Sign::Neg => Term {
            number,
            sign: Sign::Neg,
        },
        Sign::Zero => leader,
        Sign::Pos => Term {
            number,
            sign: Sign::Pos,
        },
    }
}

fn is_below(sign: Sign) -> bool
    ensures { result ≡ is_below_zero sign }
{
    match sign {
        Sign::Neg => true,
        Sign::Zero | Sign::Pos => false,
    }
}

/// Returns the sign of the term that decides a tie. The coefficient of the vertex p is the orientation of the cell, which is
/// positive, and that of a vertex of the cell is the negated orientation with p in its place. Tests large numbers first, so
/// that most others are skipped.
fn tie_sign(
    a: (u32, Point),
    b: (u32, Point),
    c: (u32, Point),
    d: (u32, Point),
    p: (u32, Point),
) -> Sign
    ensures { result ≡ (deciding_term a b c d p).sign }
{
    let own = Term {
        number: p.0,
        sign: Sign::Pos,
    };
    let with_d = leading(own, d.0, a.1, b.1, p.1, c.1);
    let with_c = leading(with_d, c.0, a.1, p.1, b.1, d.1);
    let with_b = leading(with_c, b.0, p.1, a.1, c.1, d.1);
    leading(with_b, a.0, b.1, p.1, c.1, d.1).sign
}

/// Returns whether the vertex p is in conflict with the cell a b c d.
pub(crate) fn is_in_conflict(
    a: (u32, Point),
    b: (u32, Point),
    c: (u32, Point),
    d: (u32, Point),
    p: (u32, Point),
) -> bool
    requires positive { pos 0 <ℤ orientation a.1 b.1 c.1 d.1 }
    requires apart { AreApart a b c d p }
    ensures inside { (n : ℕ) → AreBelow n a b c d p → IsTrue result ↔ (tied_power n a b c d p <ℤ pos 0) }
    ensures outside { (n : ℕ) → AreBelow n a b c d p → IsFalse result ↔ (pos 0 <ℤ tied_power n a b c d p) }
{
    match in_sphere(a.1, b.1, c.1, d.1, p.1) {
        Sign::Neg => true,
        Sign::Zero => is_below(tie_sign(a, b, c, d, p)),
        Sign::Pos => false,
    }
}

/// Returns whether the vertex p is in conflict with the cell c, each vertex given by its number and its point: whether the
/// power of p with respect to c is negative, for any exponent of the heights above the five numbers. The power is never zero.
pub fn conflict(c: [(u32, Point); 4], p: (u32, Point)) -> bool
    requires positive { OfFour c (λ c0 c1 c2 c3. pos 0 <ℤ orientation c0.1 c1.1 c2.1 c3.1) }
    requires apart { OfFour c (λ c0 c1 c2 c3. AreApart c0 c1 c2 c3 p) }
    ensures inside { OfFour c (λ c0 c1 c2 c3. (n : ℕ) → AreBelow n c0 c1 c2 c3 p → IsTrue result ↔ (tied_power n c0 c1 c2 c3 p <ℤ pos 0)) }
    ensures outside { OfFour c (λ c0 c1 c2 c3. (n : ℕ) → AreBelow n c0 c1 c2 c3 p → IsFalse result ↔ (pos 0 <ℤ tied_power n c0 c1 c2 c3 p)) }
{
    let [c0, c1, c2, c3] = c;
    is_in_conflict(c0, c1, c2, c3, p)
}
