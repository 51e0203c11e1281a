//! The visibility weights of a scene's sights at linked cells and their sides.

ghost use Rattle.std.specs.Prelude.{◌≡◌, ◌<◌, ◌≤◌, ◌^◌, IfOk, All, length};
ghost use Rattle.flow_net.specs.Weights.{IsSightList};
ghost use Rattle.visibility.specs.SceneViews.{view_of, IsSound};
ghost use Rattle.cell_net.specs.Counts.{AreCountsOf};
ghost use Rattle.solution.specs.Counts.{HasCellsOf, AreCounted};
ghost use Rattle.solution.specs.Lines.{CanFollow};

use crate::NoMemory;
use crate::beaming::count_together;
use crate::choosing::{number_alone, together};
use crate::fixing::{fixed_cells, scanner_cells};
use crate::ordering::ordered;
use crate::tally::{Counts, Located, count_sights};
use cell_net::StoreCounts;
use flow_net::Sight;
use std::alloc::{AllocError, Global};
use tetra_store::Tetra;
use visibility::Scene;
use watch::{Stage, Watch};

/// Accumulated visibility weights of a scene's sights, by the numbers of cells in the store. A number without a cell has
/// meaningless entries.
#[derive(Debug, Drop)]
pub struct Votes {
    /// At 4 * id + side the weight of the sights that cross the directed facet of a side.
    pub crossed: Vec<u32>,
    /// At id the weight of the sights that the cell is behind.
    pub behind: Vec<u32>,
    /// At id whether the cell has a corner or a scanner.
    pub fixed: Vec<bool>,
}

impl Votes {
    /// Returns the counts from which a network is made.
    pub fn store_counts(&self) -> StoreCounts<'_>
        ensures crossed { result.crossed.now ≡ self.now.crossed.items }
        ensures behind { result.behind.now ≡ self.now.behind.items }
        ensures fixed { result.fixed.now ≡ self.now.fixed.items }
    {
        StoreCounts {
            crossed: &self.crossed,
            behind: &self.behind,
            fixed: &self.fixed,
        }
    }
}

/// Returns the counts of sights: those before an index by a walk along each, and the others those of a scanner together.
fn count_in_order<W: Watch>(
    alloc: Global,
    located: &Located<'_>,
    sights: &[Sight],
    place: usize,
    watch: &mut W,
) -> Result<Counts, NoMemory>
    requires sights { CanFollow located.now sights.now }
    requires few { IsSightList sights.now }
    requires place { place ≤ length sights.now }
    ensures { IfOk result (λ counts. AreCounted located.now.t.now located.now.scanners.now sights.now counts.crossed.items counts.behind.items) }
{
    let mut counts = count_sights(alloc, located, &sights[..place], watch)?;
    count_together(
        alloc,
        located,
        &sights[place..],
        sights.len(),
        &mut counts,
        watch,
    )?;
    Ok(counts)
}

/// Returns the counts of the sights, which are traversed in another order. That order is freed before it returns.
fn counts_of<W: Watch>(
    alloc: Global,
    located: &Located<'_>,
    sights: &[Sight],
    watch: &mut W,
) -> Result<Counts, NoMemory>
    requires sights { CanFollow located.now sights.now }
    requires few { IsSightList sights.now }
    ensures { IfOk result (λ counts. AreCounted located.now.t.now located.now.scanners.now sights.now counts.crossed.items counts.behind.items) }
{
    watch.stage(Stage::Sights, sights.len() as u64);
    let flags = together(alloc, located, sights)?;
    let order = ordered(alloc, located, sights, &flags)?;
    count_in_order(alloc, located, &order, number_alone(&flags, &order), watch)
}

/// Returns a scene's accumulated visibility weights and the cells fixed outside, by a walk along each sight, or for all sights
/// of a scanner together if they are long. Reports the stage and the number of counted sights to a progress callback.
///
/// All points have to be inserted, and the cells Delaunay, as `delaunay::build` leaves them. Equal sights count as often as
/// they occur, each by its weight, and a scanner that sees nothing fixes its cell as well. The only error is out of memory,
/// also for 2^32 numbers of cells and more. The cells of the scanners are freed before it returns.
pub fn counted<W: Watch>(
    alloc: Global,
    t: &Tetra,
    scene: &Scene<'_>,
    watch: &mut W,
) -> Result<Votes, NoMemory>
    requires cells { HasCellsOf t.now scene.now }
    requires scene { IsSound scene.now }
    ensures counts { IfOk result (λ votes. AreCountsOf (view_of scene.now) t.now.slots votes.crossed.items votes.behind.items votes.fixed.items) }
    ensures few { IfOk result (λ votes. length votes.fixed.items < 2 ^ 32) }
{
    t.facts();
    let cells = scanner_cells(alloc, t, scene.scanners)?;
    let fixed = fixed_cells(alloc, t, scene.scanners, &cells)?;
    if fixed.len() > u32::MAX as usize {
        return Err(AllocError);
    }
    let located = Located {
        t,
        scanners: scene.scanners,
        cells: &cells,
    };
    let counts = counts_of(alloc, &located, scene.sights, watch)?;
    Ok(Votes {
        crossed: counts.crossed,
        behind: counts.behind,
        fixed,
    })
}
