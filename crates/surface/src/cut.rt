//! The facets between outside and inside cells, directed as in the outside cell.

ghost use Rattle.std.specs.Prelude.{◌≡◌, ◌<◌, ℕ, IfOk, not, map};
ghost use Rattle.flow_net.specs.Nets.{flag_at};
ghost use Rattle.cell_net.specs.Parts.{facet_of_side};
ghost use Rattle.surface.specs.Labelled.{IsSortedCut};

use crate::NoMemory;
use cell_net::{Side, sorted_cut};
use std::alloc::Global;
use tetra_store::Tetra;

/// Returns which cells are outside, by their numbers in the store, which are below `limit`.
pub(crate) fn outside_flags(
    alloc: Global,
    inside: &[bool],
    limit: usize,
) -> Result<Vec<bool>, NoMemory>
    ensures { IfOk result (λ v. (id : ℕ) → id < limit → flag_at v.items id ≡ not (flag_at inside.now id)) }
{
    let mut outside = Vec::with_capacity(alloc, limit)?;
    for number in 0..limit {
        let is_inside = inside.get(number).copied().unwrap_or(false);
        outside.push(!is_inside)?;
    }
    Ok(outside)
}

/// Returns the facets of sides.
fn facets_of(alloc: Global, sides: &[Side]) -> Result<Vec<[u32; 3]>, NoMemory>
    ensures { IfOk result (λ v. v.items ≡ map facet_of_side sides.now) }
{
    let mut facets = Vec::with_capacity(alloc, sides.len())?;
    for side in sides {
        facets.push(side.facet)?;
    }
    Ok(facets)
}

/// Returns the facets of outside cells whose adjacent cell is inside, in ascending order.
pub(crate) fn cut_facets(
    alloc: Global,
    t: &Tetra,
    outside: &[bool],
) -> Result<Vec<[u32; 3]>, NoMemory>
    ensures { IfOk result (λ facets. IsSortedCut t.now.slots outside.now facets.items) }
{
    let sides = sorted_cut(alloc, t, outside)?;
    facets_of(alloc, &sides)
}
