//! The label of a point among linked cells.

ghost use Rattle.std.specs.Prelude.{◌≡◌, ◌<◌, Contains, length, slice_index};
ghost use Rattle.geo_sign.specs.declared.point.TheConstants.{DATA_LIMIT};
ghost use Rattle.geo_sign.specs.Point.{IsWithin};
ghost use Rattle.tetra_store.specs.Delaunay.{IsDelaunay};
ghost use Rattle.tetra_store.specs.Links.{links_of};
ghost use Rattle.tetra_store.specs.Store.{vertices_of};
ghost use Rattle.surface.specs.Labelled.{AreAllLive};
ghost use Rattle.solid_query.specs.Labels.{IsLabelAt};

use flow_net::Labels;
use geo_sign::Point;
use tetra_store::{CellId, Tetra};
use tetra_walk::locate_scanner;

/// Returns the index of a number in a list.
fn index_of(ids: &[CellId], id: CellId) -> usize
    requires { Contains ids.now id }
    ensures within { result < length ids.now }
    ensures is { slice_index ids.now result ≡ id }
{
    for (index, other) in ids.iter().enumerate() {
        if *other == id {
            return index;
        }
    }
    // It is in the list.
    unreachable!()
}

/// Returns whether a data point is inside, by the label of the cell that contains the perturbed point. The cells have to be
/// Delaunay, `ids` all live cells, each once, with one label for each.
///
/// It allocates no memory and does not fail. It scans `ids` once: for many points of a scan use [`ask`](crate::ask).
pub fn label_at(t: &Tetra, ids: &[CellId], labels: &Labels, q: Point) -> bool
    requires delaunay { IsDelaunay (vertices_of t.now) (links_of t.now.slots) }
    requires ids { AreAllLive t.now.slots ids.now }
    requires labels { length labels.now.inside ≡ length ids.now }
    requires data_point { IsWithin DATA_LIMIT q }
    ensures { IsLabelAt t.now ids.now labels.now.inside q result }
{
    let cell = locate_scanner(t, q);
    let inside = labels.inside.as_slice();
    inside[index_of(ids, cell)]
}
