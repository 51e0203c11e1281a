//! The labels of points in the best surface of a scan.

ghost use Rattle.std.specs.Prelude.{◌<◌, ◌^◌, ℕ, IfOk, All, length};
ghost use Rattle.geo_sign.specs.declared.point.TheConstants.{DATA_LIMIT};
ghost use Rattle.geo_sign.specs.Point.{IsWithin};
ghost use Rattle.scan_rows.specs.Views.{shown_of};
ghost use Rattle.tetra_store.specs.Delaunay.{IsDelaunay};
ghost use Rattle.tetra_store.specs.Links.{links_of, IsLive};
ghost use Rattle.tetra_store.specs.Store.{vertices_of};
ghost use Rattle.solid_query.specs.Labels.{AreLabels};
ghost use Rattle.solid_query.specs.Solids.{AreFlagged};

use crate::NoMemory;
use crate::solid::solid_of;
use curve_order::order;
use flow_net::{FlowHints, Settings};
use geo_sign::Point;
use scan_rows::Scan;
use std::alloc::Global;
use tetra_store::Tetra;
use tetra_walk::locate_displaced;
use watch::{Silent, Stage, Watch, tell};

/// Returns the flags of the cells that contain the perturbed points. `flags` has one for each cell by its number in the store.
/// Each walk begins in the cell that the previous one found. Reports the number of points to a progress callback.
fn flags_at<W: Watch>(
    alloc: Global,
    t: &Tetra,
    flags: &[bool],
    points: &[Point],
    watch: &mut W,
) -> Result<Vec<bool>, NoMemory>
    requires delaunay { IsDelaunay (vertices_of t.now) (links_of t.now.slots) }
    requires fits { (id : ℕ) → IsLive (links_of t.now.slots) id → id < length flags.now }
    requires data_points { All (IsWithin DATA_LIMIT) points.now }
    ensures { IfOk result (λ found. AreFlagged t.now flags.now points.now found.items) }
{
    t.facts();
    let mut found = Vec::with_capacity(alloc, points.len())?;
    let mut cell = t.cell_at(0);
    for point in points {
        tell(watch, found.len());
        cell = locate_displaced(t, *point, cell);
        found.push(flags[cell.number()])?;
    }
    Ok(found)
}

/// Returns the same, but visits the points along a space-filling curve, so that each is near the one before it, whatever their
/// order in the list.
fn flags_along<W: Watch>(
    alloc: Global,
    t: &Tetra,
    flags: &[bool],
    points: &[Point],
    watch: &mut W,
) -> Result<Vec<bool>, NoMemory>
    requires delaunay { IsDelaunay (vertices_of t.now) (links_of t.now.slots) }
    requires fits { (id : ℕ) → IsLive (links_of t.now.slots) id → id < length flags.now }
    requires data_points { All (IsWithin DATA_LIMIT) points.now }
    requires few { length points.now < 2 ^ 32 }
    ensures { IfOk result (λ found. AreFlagged t.now flags.now points.now found.items) }
{
    t.facts();
    let order = order(alloc, points)?;
    let mut found = vec![in alloc; false; points.len()]?;
    let mut cell = t.cell_at(0);
    for k in 0..order.len() {
        tell(watch, k);
        let at = order[k] as usize;
        cell = locate_displaced(t, points[at], cell);
        found[at] = flags[cell.number()];
    }
    Ok(found)
}

/// Returns whether each of these data points is inside the best surface of a scan at these settings: true exactly if the cell
/// that contains the perturbed point is in the minimum cut with the smallest inside. The only error is out of memory.
pub fn ask(
    alloc: Global,
    scan: &Scan,
    settings: Settings,
    queries: &[Point],
) -> Result<Vec<bool>, NoMemory>
    requires { All (IsWithin DATA_LIMIT) queries.now }
    ensures { IfOk result (λ answers. AreLabels (shown_of scan.now) settings queries.now answers.items) }
{
    ask_watched(alloc, scan, settings, queries, &mut Silent)
}

/// Returns the same with the hints of a progress callback, to which it reports the stages of the work and the number of located points.
pub fn ask_watched<W: FlowHints>(
    alloc: Global,
    scan: &Scan,
    settings: Settings,
    queries: &[Point],
    watch: &mut W,
) -> Result<Vec<bool>, NoMemory>
    requires { All (IsWithin DATA_LIMIT) queries.now }
    ensures { IfOk result (λ answers. AreLabels (shown_of scan.now) settings queries.now answers.items) }
{
    let solid = solid_of(alloc, scan, settings, watch)?;
    let inside = solid.labels.inside.as_slice();
    watch.stage(Stage::Answers, queries.len() as u64);
    if queries.len() > u32::MAX as usize {
        return flags_at(alloc, &solid.tetra, inside, queries, watch);
    }
    flags_along(alloc, &solid.tetra, inside, queries, watch)
}
