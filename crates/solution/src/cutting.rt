//! The minimum cut over linked cells and counts. Depends on these as a network, and on `max_flow`.

ghost use Rattle.std.specs.Prelude.{◌<◌, ◌^◌, IfOk, length};
ghost use Rattle.scan_rows.specs.Views.{shown_of};
ghost use Rattle.solution.specs.Scans.{scene_of_scan};
ghost use Rattle.cell_net.specs.Counts.{AreCountsOf};
ghost use Rattle.solution.specs.MinimumCuts.{IsCutOf};

use crate::NoMemory;
use crate::counting::Votes;
use cell_net::CellNetwork;
use flow_net::{Flow, FlowHints, Labels, Settings, cost};
use max_flow::minimum_cut;
use scan_rows::Scan;
use std::alloc::Global;
use tetra_store::Tetra;

/// The minimum cut of a scan's cells, by the numbers of cells and sides in the store: label v is that of the cell with number
/// v, and the flow over side k of it is the entry at 4 * v + k.
#[derive(Drop)]
pub struct MinimumCut {
    /// The minimum cut with the smallest inside.
    pub labels: Labels,
    /// A flow whose value is the cost of the labels.
    pub flow: Flow,
    /// The cost of the labels.
    pub cost: u64,
}

/// Returns the minimum cut of a scan's cells. Their counts are freed before it returns. Takes hints from a progress callback, and
/// reports the stage to it. The only error is out of memory.
///
/// The cost fits, since it is no more than that of labelling all cells outside, which is below 2^47: each sight has one cell
/// behind it.
pub fn minimum_cut_of<W: FlowHints>(
    alloc: Global,
    scan: &Scan,
    settings: Settings,
    tetra: &Tetra,
    votes: Votes,
    watch: &mut W,
) -> Result<MinimumCut, NoMemory>
    requires counts { AreCountsOf (scene_of_scan (shown_of scan.now) settings) tetra.now.slots votes.crossed.items votes.behind.items votes.fixed.items }
    requires few { length votes.fixed.items < 2 ^ 32 }
    ensures { IfOk result (λ cut. IsCutOf (scene_of_scan (shown_of scan.now) settings) tetra.now.slots cut) }
{
    let _scan = scan;
    let net = CellNetwork::new(tetra, votes.store_counts(), settings);
    let (flow, labels) = minimum_cut(alloc, &net, watch)?;
    let cost = cost(&net, &labels) as u64;
    Ok(MinimumCut { labels, flow, cost })
}
