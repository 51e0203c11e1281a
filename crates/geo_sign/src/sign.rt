//! The three signs of a number.

/// The sign of a whole number.
#[derive(Clone, Copy, Debug, PartialEq, Eq)]
pub enum Sign {
    /// Below zero.
    Neg,
    /// Zero.
    Zero,
    /// Above zero.
    Pos,
}

impl Sign {
    ghost use Rattle.std.specs.Prelude.{◌≡◌, ◌↔◌, IsTrue};
    ghost use Rattle.geo_sign.specs.Signs.{sign_of, first_sign};

    /// The sign of a number.
    pub(crate) fn of(number: i128) -> Sign
        ensures { result ≡ sign_of number }
    {
        if number < 0 {
            Sign::Neg
        } else if number == 0 {
            Sign::Zero
        } else {
            Sign::Pos
        }
    }

    /// Whether this is `Pos`. Zero is not positive.
    pub fn is_pos(self) -> bool
        ensures { IsTrue result ↔ (self ≡ Sign.Pos) }
    {
        self == Sign::Pos
    }

    /// Whether this is `Neg`. Zero is not negative.
    pub fn is_neg(self) -> bool
        ensures { IsTrue result ↔ (self ≡ Sign.Neg) }
    {
        self == Sign::Neg
    }

    /// This sign, or the other where this one is zero.
    pub fn or(self, other: Sign) -> Sign
        ensures { result ≡ first_sign self other }
    {
        match self {
            Sign::Neg => Sign::Neg,
            Sign::Zero => other,
            Sign::Pos => Sign::Pos,
        }
    }
}
