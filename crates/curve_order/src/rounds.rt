//! An order divided into rounds.

ghost use Rattle.std.specs.Prelude.{ℕ, IfOk};
ghost use Rattle.std.specs.List.Sorted.{IsPermutation};
ghost use Rattle.curve_order.specs.Order.{IsOrder};

use crate::NoMemory;

/// The last round. About one number in 16^5, a million, is in the first, which is round 0.
const LAST_ROUND: u32 = 5;

/// A round has all but one of this number of parts; the rounds before it share that one.
const PARTS: u32 = 16;

/// Returns the round of a number. A fixed hash of the number decides it, so that a round has numbers from everywhere, whatever
/// the numbers mean: 15 of 16 are in the last round, 15 of 16 of the others in the round before it, and so on. So nearly all
/// cells are made in the last round, along the curve, and those that are near each other mostly have numbers near each other.
/// For traversals of the cells this locality saves more than fewer, larger rounds would save in short-lived cells.
fn round_of(number: u32) -> u32 {
    let mixed = number.wrapping_mul(0x9e37_79b9);
    let scrambled = (mixed ^ (mixed >> 15)).wrapping_mul(0x85eb_ca6b);
    let mut bound = u32::MAX;
    for before in 0..LAST_ROUND {
        bound /= PARTS;
        if scrambled >= bound {
            return LAST_ROUND - before;
        }
    }
    0
}

/// Returns the same numbers in rounds, by ascending round, and within each round in their original order. The only error is out
/// of memory.
///
/// The choice of rounds affects only speed, and no contract states it.
pub fn in_rounds(mut order: Vec<u32>) -> Result<Vec<u32>, NoMemory>
    ensures moved { IfOk result (λ rounds. IsPermutation order.items rounds.items) }
    ensures order { IfOk result (λ rounds. (n : ℕ) → IsOrder n order.items → IsOrder n rounds.items) }
{
    order.sort_by_key(|number| round_of(*number))?;
    Ok(order)
}
