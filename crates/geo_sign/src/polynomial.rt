//! Identities of polynomials over the whole numbers, proved by computation.
//!
//! Both sides of an identity are written as polynomials in numbered variables. If they multiply out to the same sum of
//! products, they have the same value wherever the variables stand for the same numbers. Nothing is done when a program runs:
//! proofs cite the theorem, and a proof by it is one line.

ghost use Rattle.geo_sign.specs.PolynomialLaws.{IdentityLaw};

/// States that polynomials that multiply out to the same have the same value everywhere. For callers that show an identity of
/// whole numbers by multiplying out.
pub fn identity_law()
    ensures { IdentityLaw }
{}
