//! The arcs of sides: from the side's cell to the adjacent one, at the visibility weight for each crossing and the area weight.

ghost use Rattle.std.specs.Prelude.{◌≡◌, ◌<◌, ◌+◌, ◌*◌, ◌^◌, IfOk, IsSome, Contains, map, length, slice_index};
ghost use Rattle.geo_sign.specs.Tetrahedron.{facet_at, turned};
ghost use Rattle.tetra_store.specs.Links.{links_of, tetrahedron_from, IsLive};
ghost use Rattle.cell_net.specs.Parts.{id_of_row, number_of_side, AreDistinctBy};
ghost use Rattle.votes.specs.Tables.{AreArcs, other_of, side_with as side_with_in, arc_from, CanBecomeArc};
ghost use Rattle.cell_net.specs.declared.rows.Row.{Row};
ghost use Rattle.cell_net.specs.declared.sides.Side.{Side};

use crate::NoMemory;
use crate::tables::{arc_numbers, entry, node_numbers, number};
use cell_net::{Row, Side, StoreCounts, facet_row, flag};
use flow_net::{Arc, Arcs, Settings};
use std::alloc::Global;
use tetra_store::{CellId, Tetra};

/// What arcs are made with: by a cell's number its node and whether it is fixed, by a side's number its arc and its crossings.
#[derive(Clone, Copy)]
struct Tables<'a> {
    nodes: &'a [u32],
    numbers: &'a [u32],
    crossed: &'a [u32],
    fixed: &'a [bool],
}

/// The side of a cell that has a directed facet.
#[tactic(auto, unfolding(crate::specs::Tables::side_with))]
fn side_with(v: [u32; 4], facet: [u32; 3]) -> usize
    ensures value { result ≡ side_with_in (tetrahedron_from v) (facet_at facet) }
    ensures within { result < 4 }
{
    if facet_row(v, 0) == facet {
        0
    } else if facet_row(v, 1) == facet {
        1
    } else if facet_row(v, 2) == facet {
        2
    } else {
        3
    }
}

/// The adjacent cell at a side that is not on a wall.
fn neighbor(t: &Tetra, side: &Side) -> CellId
    requires live { IsLive (links_of t.now.slots) side.now.id }
    requires side { side.now.side < 4 }
    requires there { IsSome ((links_of t.now.slots).next side.now.id side.now.side) }
    ensures value { result ≡ other_of t.now.slots side.now }
    ensures live { IsLive (links_of t.now.slots) result }
{
    match t.across(side.id, side.side) {
        Some(other) => other,
        None => unreachable!(),
    }
}

/// The visibility weight times a count of crossings.
pub(crate) fn votes(settings: Settings, count: u32) -> u64
    ensures value { result ≡ settings.vote * count }
    ensures fits { result < 2 ^ 48 }
{
    u64::from(settings.vote) * u64::from(count)
}

/// The directed facet in the other direction.
fn turned_row(facet: [u32; 3]) -> [u32; 3]
    ensures { facet_at result ≡ turned (facet_at facet) }
{
    let [a, b, c] = facet;
    [a, c, b]
}

/// The number of the reverse of a side's arc.
fn reverse(t: &Tetra, tables: Tables<'_>, side: &Side, other: CellId) -> usize
    requires live { IsLive (links_of t.now.slots) other }
    requires small { 4 * other + 4 < 2 ^ 64 }
    ensures { result ≡ slice_index tables.entry.numbers.now (4 * other + side_with_in ((links_of t.now.slots).at other) (turned (facet_at side.now.facet))) }
{
    let back = side_with(t.cell(other).v, turned_row(side.facet));
    entry(tables.numbers, 4 * other.number() + back) as usize
}

/// The arc of a side with an adjacent cell.
#[tactic(auto, unfolding(crate::specs::Tables::arc_from))]
fn arc(t: &Tetra, tables: Tables<'_>, settings: Settings, side: &Side) -> Arc
    requires { CanBecomeArc t.now.slots side.now }
    ensures { result ≡ arc_from t.now.slots tables.entry.nodes.now tables.entry.numbers.now tables.entry.crossed.now tables.entry.fixed.now settings side.now }
{
    let other = neighbor(t, side);
    Arc {
        from: entry(tables.nodes, side.id.number()) as usize,
        to: entry(tables.nodes, other.number()) as usize,
        cap: votes(settings, entry(tables.crossed, number(side))) + u64::from(settings.smooth),
        pair: if flag(tables.fixed, side.id) {
            None
        } else {
            Some(reverse(t, tables, side, other))
        },
    }
}

/// The arcs of sides in their order, from the tables.
fn arcs_with(
    alloc: Global,
    t: &Tetra,
    tables: Tables<'_>,
    settings: Settings,
    sides: &[Side],
) -> Result<Arcs, NoMemory>
    requires { (x : Side) → Contains sides.now x → CanBecomeArc t.now.slots x }
    ensures { IfOk result (λ arcs. arcs ≡ map (arc_from t.now.slots tables.entry.nodes.now tables.entry.numbers.now tables.entry.crossed.now tables.entry.fixed.now settings) sides.now) }
{
    let mut arcs = Arcs::with_capacity(alloc, sides.len())?;
    for side in sides {
        arcs.push(arc(t, tables, settings, side))?;
    }
    Ok(arcs)
}

/// The arcs of sides in their order. The tables that lead from the store to nodes and arcs live no longer than this takes.
pub(crate) fn arcs_of(
    alloc: Global,
    t: &Tetra,
    counts: &StoreCounts<'_>,
    settings: Settings,
    rows: &[Row],
    sides: &[Side],
) -> Result<Arcs, NoMemory>
    requires few_rows { length rows.now < 2 ^ 32 }
    requires few_sides { length sides.now < 2 ^ 32 }
    requires ids { (r : Row) → Contains rows.now r → id_of_row r < length counts.now.fixed.now }
    requires numbers { (x : Side) → Contains sides.now x → number_of_side x < length counts.now.crossed.now }
    requires apart_rows { AreDistinctBy id_of_row rows.now }
    requires apart_sides { AreDistinctBy number_of_side sides.now }
    requires joins { (x : Side) → Contains sides.now x → CanBecomeArc t.now.slots x }
    ensures { IfOk result (λ arcs. AreArcs t.now.slots rows.now sides.now counts.now.crossed.now counts.now.fixed.now settings arcs) }
{
    let nodes = node_numbers(alloc, rows, counts.fixed.len())?;
    let numbers = arc_numbers(alloc, sides, counts.crossed.len())?;
    let tables = Tables {
        nodes: &nodes,
        numbers: &numbers,
        crossed: counts.crossed,
        fixed: counts.fixed,
    };
    arcs_with(alloc, t, tables, settings, sides)
}
