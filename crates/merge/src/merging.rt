//! Merging: each row's point is looked up among those of the rows before it. Depends on `indexmap`'s set.

ghost use Rattle.std.specs.Prelude.{◌≡◌, ◌^◌, ◌<◌, IfOk, length, map};
ghost use Rattle.merge.specs.Merging.{distinct_points, index_among};

use crate::NoMemory;
use geo_sign::Point;
use indexmap::IndexSet;
use std::alloc::Global;

/// The distinct points of rows, and the index of each row's point.
#[derive(Debug, Drop)]
pub struct Merged {
    /// The distinct points in the order of their first rows, in scaled whole units.
    pub points: Vec<Point>,
    /// The index of each row's point in `points`, counted from 0, row by row.
    pub of_row: Vec<u32>,
}

/// Returns the distinct points of the rows in the order of their first rows, and the index of each row's point among them.
///
/// There are fewer than 2^32 rows, so that each index fits. The only error is out of memory.
pub fn merge(alloc: Global, points: &[Point]) -> Result<Merged, NoMemory>
    requires { length points.now < 2 ^ 32 }
    ensures points { IfOk result (λ merged. merged.points.items ≡ distinct_points points.now) }
    ensures of_row { IfOk result (λ merged. merged.of_row.items ≡ map (index_among (distinct_points points.now)) points.now) }
{
    let mut seen: IndexSet<Point> = IndexSet::new(alloc);
    let mut of_row = Vec::new(alloc);
    for point in points {
        let (index, _) = seen.insert_full(*point)?;
        of_row.push(index as u32)?;
    }
    let points = seen.as_slice().to_vec(alloc)?;
    Ok(Merged { points, of_row })
}
