//! The distinct points and the sights of a scan. Depends on `merge` and on `flow_net`, which has the type of sights.

ghost use Rattle.std.specs.Prelude.{◌≡◌, IfOk, map};
ghost use Rattle.merge.specs.Merging.{index_among};
ghost use Rattle.scan_rows.specs.Views.{shown_of};
ghost use Rattle.visibility.specs.SceneViews.{view_of, IsSound};
ghost use Rattle.solution.specs.Scans.{points_of, scene_of_scan, sights_of as sights_in};

use crate::NoMemory;
use flow_net::{Settings, Sight};
use geo_sign::{CORNERS, Point};
use merge::merge;
use scan_rows::Scan;
use std::alloc::Global;
use visibility::Scene;

/// The distinct points of a scan, and its sights.
#[derive(Debug, Drop)]
pub struct SeenPoints {
    /// The distinct points in the order of their first rows. The first is vertex 8, after the box's eight corners.
    pub points: Vec<Point>,
    /// The sights in the order of their rows: each of its row's point, from its scanner, of its weight. Equal ones are
    /// repeated.
    pub sights: Vec<Sight>,
}

/// Returns the sights of a scan. `of_row` has the index of each row's point among the distinct points.
fn sights_of(alloc: Global, scan: &Scan, of_row: &[u32]) -> Result<Vec<Sight>, NoMemory>
    requires { of_row.now ≡ map (index_among (points_of (shown_of scan.now))) scan.now.points.items }
    ensures { IfOk result (λ sights. sights.items ≡ sights_in (shown_of scan.now)) }
{
    let mut sights = Vec::new(alloc);
    for seen in scan.seen.as_slice() {
        sights.push(Sight {
            vertex: CORNERS + of_row[seen.row as usize],
            scanner: seen.scanner,
            weight: u32::from(seen.weight),
        })?;
    }
    Ok(sights)
}

impl SeenPoints {
    /// Returns the scene of the scan with these points and sights.
    pub fn scene<'a>(&'a self, scan: &'a Scan, settings: Settings) -> Scene<'a>
        requires points { self.now.points.items ≡ points_of (shown_of scan.now) }
        requires sights { self.now.sights.items ≡ sights_in (shown_of scan.now) }
        ensures points { result.points.now ≡ points_of (shown_of scan.now) }
        ensures sound { IsSound result }
        ensures scene { view_of result ≡ scene_of_scan (shown_of scan.now) settings }
    {
        Scene {
            points: &self.points,
            scanners: &scan.scanners,
            sights: &self.sights,
            settings,
        }
    }
}

/// Returns the distinct points and the sights of a scan. The only error is out of memory.
pub fn seen_in(alloc: Global, scan: &Scan) -> Result<SeenPoints, NoMemory>
    ensures points { IfOk result (λ seen. seen.points.items ≡ points_of (shown_of scan.now)) }
    ensures sights { IfOk result (λ seen. seen.sights.items ≡ sights_in (shown_of scan.now)) }
{
    let merged = merge(alloc, &scan.points)?;
    let sights = sights_of(alloc, scan, &merged.of_row)?;
    Ok(SeenPoints {
        points: merged.points,
        sights,
    })
}
