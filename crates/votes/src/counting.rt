//! The network of linked cells, from the sights of a scan.

ghost use Rattle.std.specs.Prelude.{◌≡◌, ◌<◌, ℕ, true, false, IfOk, All, length, slice_index_or};
ghost use Rattle.geo_sign.specs.declared.point.TheConstants.{DATA_LIMIT};
ghost use Rattle.geo_sign.specs.Point.{IsWithin};
ghost use Rattle.flow_net.specs.Weights.{IsSightList};
ghost use Rattle.visibility.specs.Scenes.{scene_of};
ghost use Rattle.plain_net.specs.Networks.{IsNetworkOf};
ghost use Rattle.tetra_store.specs.Delaunay.{IsDelaunay};
ghost use Rattle.tetra_store.specs.Links.{links_of};
ghost use Rattle.tetra_store.specs.Store.{data_points_of, vertices_of};
ghost use Rattle.cell_net.specs.Counts.{AreIdsOf};
ghost use Rattle.solution.specs.Counts.{IsInRange};

use crate::NoMemory;
use crate::network::{Counted, assemble};
use flow_net::{Settings, Sight};
use geo_sign::Point;
use solution::counted;
use std::alloc::Global;
use tetra_store::Tetra;
use visibility::Scene;
use watch::Silent;

/// Builds the network of the cells of a store's data points, by a walk along each sight.
///
/// All points are inserted, and the cells Delaunay, as `delaunay::build` leaves them. A sight is from an inserted data point,
/// by its vertex number, to a scanner, by its index in `scanners`. Equal sights count as often as they occur, each by its
/// weight, and a scanner that sees nothing fixes its cell as well. Nodes are in the order of their cells' ascending numbers,
/// arcs in that of their facets. The only error is out of memory, also for 2^32 cells or facets and more.
pub fn count_votes(
    alloc: Global,
    t: &Tetra,
    sights: &[Sight],
    scanners: &[Point],
    settings: Settings,
) -> Result<Counted, NoMemory>
    requires inserted { (u : ℕ) → u < length t.now.points → slice_index_or t.now.inserted u false ≡ true }
    requires delaunay { IsDelaunay (vertices_of t.now) (links_of t.now.slots) }
    requires sights { All (IsInRange (vertices_of t.now) scanners.now) sights.now }
    requires few { IsSightList sights.now }
    requires scanners { All (IsWithin DATA_LIMIT) scanners.now }
    ensures network { IfOk result (λ counted. IsNetworkOf (scene_of (data_points_of t.now) scanners.now sights.now settings) counted.voted) }
    ensures ids { IfOk result (λ counted. AreIdsOf t.now.slots counted.voted.cells counted.ids.items) }
{
    let scene = Scene {
        points: t.data_points(),
        scanners,
        sights,
        settings,
    };
    let votes = counted(alloc, t, &scene, &mut Silent)?;
    assemble(alloc, t, &scene, &votes.store_counts())
}
