//! The scan that a seed generates. Depends on the faces of `cube` and on the kit's `rand_pcg`.

ghost use Rattle.std.specs.Prelude.{◌≡◌, ◌≤◌, IfOk, length, unsigned_abs};
ghost use Rattle.scan_rows.specs.ScanRows.{point_limit};
ghost use Rattle.scan_rows.specs.Shown.{shown_by};
ghost use Rattle.scan_rows.specs.Views.{shown_of};
ghost use Rattle.gen_scan.specs.Generated.{spread as spread_of, generated};

use crate::NoMemory;
use crate::cube::{FACES, point_on_face, scanners};
use geo_sign::Point;
use rand_core::utils::NextWord;
use rand_pcg::Pcg32;
use scan_rows::{Scan, Seen};
use std::alloc::Global;

/// The distance of the faces from the middle, in scaled whole units.
const FACE_DISTANCE: i64 = 1_000;

/// Maps a word to a number from -1000 to 1000.
fn spread(word: u32) -> i64
    ensures value { result ≡ spread_of word }
    ensures small { unsigned_abs result ≤ 1000 }
{
    i64::from(word % 2_001) - 1_000
}

/// Returns the points of this number of rows, and the sight of each.
fn vertices(alloc: Global, count: u32, seed: u64) -> Result<(Vec<Point>, Vec<Seen>), NoMemory>
    ensures points { IfOk result (λ made. made.0.items ≡ (shown_by (generated count seed)).points) }
    ensures seen { IfOk result (λ made. made.1.items ≡ (shown_by (generated count seed)).seen) }
    ensures count { IfOk result (λ made. length made.0.items ≡ count) }
{
    let mut words = Pcg32::new(seed, 1);
    let mut points = Vec::new(alloc);
    let mut seen = Vec::new(alloc);
    for row in 0..count {
        let u = spread(words.next_word());
        let v = spread(words.next_word());
        let face = row % FACES;
        points.push(point_on_face(face, FACE_DISTANCE, u, v))?;
        seen.push(Seen {
            row,
            scanner: face,
            weight: 1,
        })?;
    }
    Ok((points, seen))
}

/// Returns the scan of `n` rows that a seed generates.
///
/// Six scanners stand 5,000 scaled units from the middle, two on each axis. Row `i` is a point of the face of a cube, 1,000
/// units from the middle, before which scanner `i % 6` stands, at two random numbers from -1,000 to 1,000 on the other two
/// axes. `Pcg32` on stream 1 gives two random words a row.
pub fn gen_scan(alloc: Global, n: u32, seed: u64) -> Result<Scan, NoMemory>
    requires least { 1 ≤ n }
    requires most { n ≤ point_limit }
    ensures { IfOk result (λ scan. shown_of scan ≡ shown_by (generated n seed)) }
{
    let scanners = scanners(alloc)?;
    let (points, seen) = vertices(alloc, n, seed)?;
    Ok(Scan {
        points,
        scanners,
        seen,
    })
}
