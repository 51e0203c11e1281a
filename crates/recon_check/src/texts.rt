//! Where two texts differ.

ghost use Rattle.std.specs.Prelude.{◌≡◌, IfSome, IfNone};
ghost use Rattle.recon_check.specs.Differences.{IsFirstDifference};

/// Finds the first position at which two texts differ. If one is a prefix of the other, that is the length of the shorter one.
pub fn first_difference(text: &[u8], other: &[u8]) -> Option<usize>
    ensures same { IfNone result (text.now ≡ other.now) }
    ensures differs { IfSome result (IsFirstDifference text.now other.now) }
{
    for (place, byte) in text.iter().enumerate() {
        if place >= other.len() || other[place] != *byte {
            return Some(place);
        }
    }
    if text.len() < other.len() {
        Some(text.len())
    } else {
        None
    }
}
