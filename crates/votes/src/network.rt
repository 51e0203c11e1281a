//! The network: a node for each cell, an arc for each directed facet with a free adjacent cell.

ghost use Rattle.std.specs.Prelude.{◌≡◌, ◌*◌, IfOk, map, slice_index};
ghost use Rattle.std.specs.List.Sorted.{IsPermutation, IsNonDecreasingBy};
ghost use Rattle.flow_net.specs.Nets.{flag_at};
ghost use Rattle.visibility.specs.SceneViews.{view_of};
ghost use Rattle.plain_net.specs.Networks.{IsNetworkOf};
ghost use Rattle.cell_net.specs.Counts.{AreCountsOf, AreIdsOf};
ghost use Rattle.cell_net.specs.Gathered.{all_rows, all_open, key_of_row, key_of_side};
ghost use Rattle.cell_net.specs.Parts.{id_of_row, facet_of_side};

use crate::NoMemory;
use crate::arcs::{arcs_of, votes};
use crate::sides::sorted_sides;
use crate::tables::entry;
use cell_net::{Row, Side, StoreCounts, cells_of, flag, sorted_rows};
use flow_net::{Net, Sequence, Settings, Voted};
use std::alloc::{AllocError, Global};
use tetra_store::{CellId, Tetra};
use visibility::Scene;

/// The network with the cell of each node.
#[derive(Debug, Drop)]
pub struct Counted {
    /// The network.
    pub voted: Voted,
    /// The live cell that each node stands for.
    pub ids: Vec<CellId>,
}

/// The numbers in the store of the cells of rows.
fn ids_of(alloc: Global, rows: &[Row]) -> Result<Vec<CellId>, NoMemory>
    ensures { IfOk result (λ v. v.items ≡ map id_of_row rows.now) }
{
    rows.iter().map(|row| row.id).collect(alloc)
}

/// The facets of sides, which are freed.
fn facets_of(alloc: Global, sides: Vec<Side>) -> Result<Vec<[u32; 3]>, NoMemory>
    ensures { IfOk result (λ v. v.items ≡ map facet_of_side sides.items) }
{
    let mut facets = Vec::with_capacity(alloc, sides.len())?;
    for side in &sides {
        facets.push(side.facet)?;
    }
    Ok(facets)
}

/// Which of the cells of rows are fixed.
fn fixed_of(alloc: Global, rows: &[Row], fixed: &[bool]) -> Result<Vec<bool>, NoMemory>
    ensures { IfOk result (λ v. v.items ≡ map (λ r. flag_at fixed.now (id_of_row r)) rows.now) }
{
    rows.iter().map(|row| flag(fixed, row.id)).collect(alloc)
}

/// The sinks of the cells of rows.
fn sinks_of(
    alloc: Global,
    rows: &[Row],
    behind: &[u32],
    settings: Settings,
) -> Result<Vec<u64>, NoMemory>
    ensures { IfOk result (λ v. v.items ≡ map (λ r. settings.vote * slice_index behind.now (id_of_row r)) rows.now) }
{
    rows.iter()
        .map(|row| votes(settings, entry(behind, row.id.number())))
        .collect(alloc)
}

/// The network over rows and sides that rise: a node for each row, an arc for each side.
fn network_over(
    alloc: Global,
    t: &Tetra,
    scene: &Scene<'_>,
    counts: &StoreCounts<'_>,
    rows: &[Row],
    sides: Vec<Side>,
) -> Result<Counted, NoMemory>
    requires counts { let n = counts.now in AreCountsOf (view_of scene.now) t.now.slots n.crossed.now n.behind.now n.fixed.now }
    requires rows { IsPermutation (all_rows t.now.slots) rows.now }
    requires sides { IsPermutation (all_open counts.now.fixed.now t.now.slots) sides.items }
    requires rows_rise { IsNonDecreasingBy key_of_row rows.now }
    requires sides_rise { IsNonDecreasingBy key_of_side sides.items }
    ensures network { IfOk result (λ counted. IsNetworkOf (view_of scene.now) counted.voted) }
    ensures ids { IfOk result (λ counted. AreIdsOf t.now.slots counted.voted.cells counted.ids.items) }
{
    if rows.len() > u32::MAX as usize || sides.len() > u32::MAX as usize {
        return Err(AllocError);
    }
    let arcs = arcs_of(alloc, t, counts, scene.settings, rows, &sides)?;
    let facets = facets_of(alloc, sides)?;
    let net = Net::with_arcs(
        Sequence::from(fixed_of(alloc, rows, counts.fixed)?),
        Sequence::from(sinks_of(alloc, rows, counts.behind, scene.settings)?),
        arcs,
    );
    let voted = Voted {
        net,
        cells: Sequence::from(cells_of(alloc, rows)?),
        facets: Sequence::from(facets),
    };
    let ids = ids_of(alloc, rows)?;
    Ok(Counted { voted, ids })
}

/// The network of a scene, whose cells are those of the store: nodes in the order of their cells' ascending numbers, and arcs
/// in that of their facets from the least number on, the one order that does not depend on how the store numbers its cells.
///
/// Both lists are sorted, which takes longer than all else here. The only error is out of memory, which also stands for 2^32
/// cells or facets and more.
pub(crate) fn assemble(
    alloc: Global,
    t: &Tetra,
    scene: &Scene<'_>,
    counts: &StoreCounts<'_>,
) -> Result<Counted, NoMemory>
    requires { let n = counts.now in AreCountsOf (view_of scene.now) t.now.slots n.crossed.now n.behind.now n.fixed.now }
    ensures network { IfOk result (λ counted. IsNetworkOf (view_of scene.now) counted.voted) }
    ensures ids { IfOk result (λ counted. AreIdsOf t.now.slots counted.voted.cells counted.ids.items) }
{
    let rows = sorted_rows(alloc, t)?;
    let sides = sorted_sides(alloc, t, counts.fixed, counts.crossed.len())?;
    network_over(alloc, t, scene, counts, &rows, sides)
}
