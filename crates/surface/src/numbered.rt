//! Reorders labels to the numbers of cells in the store.

ghost use Rattle.std.specs.Prelude.{◌≡◌, ◌<◌, ℕ, IfOk, length, slice_index};
ghost use Rattle.flow_net.specs.Nets.{flag_at};
ghost use Rattle.tetra_store.specs.Links.{links_of, IsLive};
ghost use Rattle.surface.specs.Labelled.{AreAllLive};

use crate::NoMemory;
use flow_net::Labels;
use std::alloc::Global;
use tetra_store::{CellId, Tetra};

/// Lists the labels at the cells' numbers, where `ids` are all cells of the store, each once, in the order of the labels. The list has an
/// entry for each cell. The only error is out of memory.
pub(crate) fn labels_by_number(
    alloc: Global,
    t: &Tetra,
    ids: &[CellId],
    labels: &Labels,
) -> Result<Vec<bool>, NoMemory>
    requires ids { AreAllLive t.now.slots ids.now }
    requires labels { length labels.now.inside ≡ length ids.now }
    ensures fits { IfOk result (λ inside. (id : ℕ) → IsLive (links_of t.now.slots) id → id < length inside.items) }
    ensures flags { IfOk result (λ inside. (k : ℕ) → k < length ids.now → flag_at inside.items (slice_index ids.now k) ≡ flag_at labels.now.inside k) }
{
    let flags = labels.inside.as_slice();
    let limit = t.number_limit();
    let mut inside = vec![in alloc; false; limit]?;
    for (node, id) in ids.iter().enumerate() {
        inside[id.number()] = flags[node];
    }
    Ok(inside)
}
