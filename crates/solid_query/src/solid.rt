//! The linked cells of a scan, and which of them are inside by the minimum cut with the smallest inside.

ghost use Rattle.std.specs.Prelude.{IfOk};
ghost use Rattle.scan_rows.specs.Views.{shown_of};
ghost use Rattle.solid_query.specs.Solids.{IsSolid};

use crate::NoMemory;
use flow_net::{FlowHints, Labels, Settings};
use scan_rows::Scan;
use solution::{counted_cells, minimum_cut_of};
use std::alloc::Global;
use tetra_store::Tetra;

/// The linked Delaunay cells of a scan, and which of them are inside.
#[derive(Drop)]
pub(crate) struct Solid {
    /// The cells of the box's corners and the scan's distinct points.
    pub(crate) tetra: Tetra,
    /// For each cell, by its number in the store, whether it is inside.
    pub(crate) labels: Labels,
}

/// Returns the linked cells of a scan, and which of them are inside by the minimum cut with the smallest inside at these
/// settings. Takes hints from a progress callback, and reports the stages to it.
pub(crate) fn solid_of<W: FlowHints>(
    alloc: Global,
    scan: &Scan,
    settings: Settings,
    watch: &mut W,
) -> Result<Solid, NoMemory>
    ensures { IfOk result (λ solid. IsSolid (shown_of scan.now) settings solid.tetra solid.labels.inside) }
{
    let (tetra, votes) = counted_cells(alloc, scan, settings, watch)?;
    let cut = minimum_cut_of(alloc, scan, settings, &tetra, votes, watch)?;
    Ok(Solid {
        tetra,
        labels: cut.labels,
    })
}
