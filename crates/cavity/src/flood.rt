//! The flood fill through facets, from one cell in conflict to all.

ghost use Rattle.std.specs.Prelude.{◌≡◌, ◌<◌, ◌+◌, ◌*◌, ◌↔◌, false, IsTrue, IsFalse, OnOk, Some, [], length, slice_index_or};
ghost use Rattle.std.specs.Option.{ForSome};
ghost use Rattle.tetra_store.specs.Links.{links_of, IsLive};
ghost use Rattle.tetra_store.specs.Store.{vertices_of};
ghost use Rattle.geo_sign.specs.Boxes.{IsInConflict, IsClearOf};
ghost use Rattle.cavity.specs.Flood.{AreMarked, IsCrossed, IsFlooding, IsVisited};

use crate::NoMemory;
use crate::cavity::Cavity;
use geo_tie::conflict;
use tetra_store::{CellId, Facet, Tetra};

/// Returns whether a vertex that is not inserted yet is in conflict with a cell.
#[inline(never)]
pub(crate) fn is_in_conflict(t: &Tetra, id: CellId, p: u32) -> bool
    requires below { p < length t.now.points }
    requires out { slice_index_or t.now.inserted p false ≡ false }
    requires live { IsLive (links_of t.now.slots) id }
    ensures inside { IsTrue result ↔ IsInConflict (vertices_of t.now) p ((links_of t.now.slots).at id) }
    ensures outside { IsFalse result ↔ IsClearOf (vertices_of t.now) p ((links_of t.now.slots).at id) }
{
    t.facts();
    let [a, b, c, d] = t.cell(id).v;
    conflict(
        [
            (a, t.point(a)),
            (b, t.point(b)),
            (c, t.point(c)),
            (d, t.point(d)),
        ],
        (p, t.point(p)),
    )
}

/// Crosses a facet of a reached cell: reaches the adjacent cell if it is in conflict and was not reached before; puts the facet
/// on the boundary if the adjacent cell is not in conflict or does not exist.
#[inline(always)]
fn cross(
    into: &mut Cavity,
    t: &Tetra,
    p: u32,
    facet: [u32; 3],
    across: Option<CellId>,
) -> Result<(), NoMemory>
    requires below { p < length t.now.points }
    requires out { slice_index_or t.now.inserted p false ≡ false }
    requires live { ForSome across (λ y. IsLive (links_of t.now.slots) y) }
    requires marked { AreMarked into.old.marks.stamps.items into.old.marks.round into.old.cells.items }
    ensures crossed { OnOk result (IsCrossed (vertices_of t.now) (links_of t.now.slots) p facet across into.old.cells.items into.old.fan.items into.new.cells.items into.new.fan.items) }
    ensures marked { OnOk result (AreMarked into.new.marks.stamps.items into.new.marks.round into.new.cells.items) }
{
    if let Some(y) = across {
        if into.marks.has(y.number()) {
            return Ok(());
        }
        if is_in_conflict(t, y, p) {
            into.marks.mark(y.number())?;
            into.cells.push(y)?;
            return Ok(());
        }
    }
    into.fan.push(Facet {
        v: facet,
        outer: across,
    })?;
    Ok(())
}

/// Crosses the four facets of a reached cell.
fn visit(into: &mut Cavity, t: &Tetra, p: u32, id: CellId) -> Result<(), NoMemory>
    requires below { p < length t.now.points }
    requires out { slice_index_or t.now.inserted p false ≡ false }
    requires live { IsLive (links_of t.now.slots) id }
    requires marked { AreMarked into.old.marks.stamps.items into.old.marks.round into.old.cells.items }
    ensures flooding { OnOk result (IsVisited (vertices_of t.now) (links_of t.now.slots) p id into.old.cells.items into.old.fan.items into.new.cells.items into.new.fan.items) }
    ensures marked { OnOk result (AreMarked into.new.marks.stamps.items into.new.marks.round into.new.cells.items) }
{
    t.facts();
    // All adjacent cells are read before the first is visited, so that the cell is looked up once.
    let [a, b, c, d] = t.cell(id).v;
    let w = t.across(id, 0);
    let x = t.across(id, 1);
    let y = t.across(id, 2);
    let z = t.across(id, 3);
    cross(into, t, p, [b, d, c], w)?;
    cross(into, t, p, [a, c, d], x)?;
    cross(into, t, p, [a, d, b], y)?;
    cross(into, t, p, [a, b, c], z)?;
    Ok(())
}

/// Reaches all cells in conflict from one of them.
pub(crate) fn flood(into: &mut Cavity, t: &Tetra, p: u32, from: CellId) -> Result<(), NoMemory>
    requires below { p < length t.now.points }
    requires out { slice_index_or t.now.inserted p false ≡ false }
    requires live { IsLive (links_of t.now.slots) from }
    requires conflict { IsInConflict (vertices_of t.now) p ((links_of t.now.slots).at from) }
    requires no_cells { into.old.cells.items ≡ [] }
    requires no_fan { into.old.fan.items ≡ [] }
    requires no_marks { AreMarked into.old.marks.stamps.items into.old.marks.round [] }
    ensures { OnOk result (IsFlooding (vertices_of t.now) (links_of t.now.slots) p from into.new.cells.items into.new.fan.items (4 * length into.new.cells.items)) }
{
    into.marks.mark(from.number())?;
    into.cells.push(from)?;
    let mut done = 0;
    while done < into.cells.len() {
        let id = into.cells[done];
        visit(into, t, p, id)?;
        done += 1;
    }
    Ok(())
}
