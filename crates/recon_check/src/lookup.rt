//! Rows of a certificate found by the cell or facet that they name. It depends on `cert_text` alone.
//!
//! The rows of a list are sorted, so those with the same first number are adjacent. A table has for each number the index of the first row
//! that begins with it or a greater one, and the search for a row bisects between two entries of the table.

ghost use Rattle.std.specs.Prelude.{◌≡◌, ◌≢◌, ◌<◌, ◌≤◌, [], ℕ, IfOk, IfSome, IfNone, AllPairs, length, map, slice_index_or};
ghost use Rattle.geo_sign.specs.Rising.{IsBefore};
ghost use Rattle.recon_check.specs.Lookups.{least_number, AreStarts};

use crate::NoMemory;
use cert_text::Row;
use std::alloc::Global;

/// Returns the first number of a key, or 0 for an empty key.
fn first_number(key: &[u32]) -> usize
    ensures { result ≡ least_number key.now }
{
    match key.first() {
        Some(number) => *number as usize,
        None => 0,
    }
}

/// Returns the index of the first row, from this index on, that begins with this number or a greater one.
fn skip<R: Row>(rows: &[R], from: usize, number: usize) -> usize
    requires { from ≤ length rows.now }
    ensures within { result ≤ length rows.now }
    ensures from { from ≤ result }
    ensures before { (k : ℕ) → from ≤ k → k < result → least_number (slice_index_or (map R.key rows.now) k []) < number }
    ensures at { result < length rows.now → number ≤ least_number (slice_index_or (map R.key rows.now) result []) }
{
    let mut place = from;
    while place < rows.len() && first_number(rows[place].key()) < number {
        place += 1;
    }
    place
}

/// Returns, for each number below a count, the index of the first row that begins with it or a greater one.
pub fn starts_of<R: Row>(alloc: Global, rows: &[R], count: usize) -> Result<Vec<usize>, NoMemory>
    requires { AllPairs IsBefore (map R.key rows.now) }
    ensures { IfOk result (λ starts. AreStarts (map R.key rows.now) starts.items) }
{
    let mut starts = Vec::with_capacity(alloc, count)?;
    let mut place = 0;
    for number in 0..count {
        place = skip(rows, place, number);
        starts.push(place)?;
    }
    Ok(starts)
}

/// Bisects for the row with this key between two indices, and returns its index.
fn search<R: Row>(rows: &[R], from: usize, to: usize, key: &[u32]) -> Option<usize>
    requires rising { AllPairs IsBefore (map R.key rows.now) }
    requires within { to ≤ length rows.now }
    ensures some { IfSome result (λ k. (k < length rows.now) × (slice_index_or (map R.key rows.now) k [] ≡ key.now)) }
    ensures none { IfNone result ((k : ℕ) → from ≤ k → k < to → slice_index_or (map R.key rows.now) k [] ≢ key.now) }
{
    let mut low = from;
    let mut high = to;
    while low < high {
        let middle = low + (high - low) / 2;
        if rows[middle].key() < key {
            low = middle + 1;
        } else {
            high = middle;
        }
    }
    if low < to && rows[low].key() == key {
        Some(low)
    } else {
        None
    }
}

/// Returns the index of the row with this key. If the first number of the key is in the table, only rows that begin with it are read.
pub fn find<R: Row>(rows: &[R], starts: &[usize], key: &[u32]) -> Option<usize>
    requires rising { AllPairs IsBefore (map R.key rows.now) }
    requires starts { AreStarts (map R.key rows.now) starts.now }
    ensures some { IfSome result (λ k. (k < length rows.now) × (slice_index_or (map R.key rows.now) k [] ≡ key.now)) }
    ensures none { IfNone result ((k : ℕ) → k < length rows.now → slice_index_or (map R.key rows.now) k [] ≢ key.now) }
{
    let first = first_number(key);
    let from = match starts.get(first) {
        Some(place) => *place,
        None => 0,
    };
    let to = match starts.get(first + 1) {
        Some(place) => *place,
        None => rows.len(),
    };
    search(rows, from, to, key)
}
