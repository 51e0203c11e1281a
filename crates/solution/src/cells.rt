//! The linked cells of a scan and the counts from which the network over them is made. Depends on `delaunay`, which makes the
//! cells.

ghost use Rattle.std.specs.Prelude.{◌≡◌, ◌<◌, ◌^◌, IfOk, length};
ghost use Rattle.scan_rows.specs.Views.{shown_of};
ghost use Rattle.solution.specs.Scans.{points_of, scene_of_scan, sights_of};
ghost use Rattle.tetra_store.specs.Delaunay.{IsDelaunay};
ghost use Rattle.tetra_store.specs.Links.{links_of};
ghost use Rattle.tetra_store.specs.Store.{vertices_of};
ghost use Rattle.cell_net.specs.Counts.{AreCountsOf};
ghost use Rattle.solution.specs.Stored.{IsStoreOf};

use crate::NoMemory;
use crate::counting::{Votes, counted};
use crate::sights::{SeenPoints, seen_in};
use delaunay::build_watched;
use flow_net::Settings;
use scan_rows::Scan;
use std::alloc::Global;
use tetra_store::Tetra;
use watch::Watch;

/// Returns the linked Delaunay cells of a scan's points, and the accumulated visibility weights of its sights. Reports both
/// stages to a progress callback. The only error is out of memory, also for 2^32 numbers of cells and more.
pub fn counted_cells<W: Watch>(
    alloc: Global,
    scan: &Scan,
    settings: Settings,
    watch: &mut W,
) -> Result<(Tetra, Votes), NoMemory>
    ensures store { IfOk result (λ made. IsStoreOf (shown_of scan.now) settings made.0) }
    ensures delaunay { IfOk result (λ made. IsDelaunay (vertices_of made.0) (links_of made.0.slots)) }
    ensures counts { IfOk result (λ made. AreCountsOf (scene_of_scan (shown_of scan.now) settings) made.0.slots made.1.crossed.items made.1.behind.items made.1.fixed.items) }
    ensures few { IfOk result (λ made. length made.1.fixed.items < 2 ^ 32) }
{
    let seen = seen_in(alloc, scan)?;
    counted_cells_with(alloc, scan, &seen, settings, watch)
}

/// Returns the same, given the distinct points and the sights of the scan.
pub fn counted_cells_with<W: Watch>(
    alloc: Global,
    scan: &Scan,
    seen: &SeenPoints,
    settings: Settings,
    watch: &mut W,
) -> Result<(Tetra, Votes), NoMemory>
    requires points { seen.now.points.items ≡ points_of (shown_of scan.now) }
    requires sights { seen.now.sights.items ≡ sights_of (shown_of scan.now) }
    ensures store { IfOk result (λ made. IsStoreOf (shown_of scan.now) settings made.0) }
    ensures delaunay { IfOk result (λ made. IsDelaunay (vertices_of made.0) (links_of made.0.slots)) }
    ensures counts { IfOk result (λ made. AreCountsOf (scene_of_scan (shown_of scan.now) settings) made.0.slots made.1.crossed.items made.1.behind.items made.1.fixed.items) }
    ensures few { IfOk result (λ made. length made.1.fixed.items < 2 ^ 32) }
{
    let tetra = build_watched(alloc, &seen.points, watch)?;
    tetra.facts();
    let votes = counted(alloc, &tetra, &seen.scene(scan, settings), watch)?;
    Ok((tetra, votes))
}
