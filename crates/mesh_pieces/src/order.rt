//! Whether numbers are in order.

ghost use Rattle.std.specs.Bool.{OnTrue};
ghost use Rattle.mesh_pieces.specs.Copies.{IsAscending, IsNonDescending};

/// Returns whether each number is above the one before it.
pub fn is_ascending(xs: &[u32]) -> bool
    ensures { OnTrue result (IsAscending xs.now) }
{
    for k in 1..xs.len() {
        if xs[k - 1] >= xs[k] {
            return false;
        }
    }
    true
}

/// Returns whether no number is below the one before it.
pub fn is_non_descending(xs: &[u32]) -> bool
    ensures { OnTrue result (IsNonDescending xs.now) }
{
    for k in 1..xs.len() {
        if xs[k - 1] > xs[k] {
            return false;
        }
    }
    true
}
