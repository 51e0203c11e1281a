//! What a certificate states about linked cells, by the numbers of cells and sides. It depends on the search for rows, on the cells of
//! `tetra_store` and on the rows and facets of `cell_net`.
//!
//! Cells are looked up among the rows, and the number of each is written at the row that names it: first in an order that suits the cache
//! (a hint), and, if a row is left without a number, by all numbers of cells. A row that still has none names no cell of
//! the scan; the numbers of the others are the indices of labels and amounts.

ghost use Rattle.std.specs.Prelude.{◌≡◌, ◌≢◌, ◌<◌, ◌≤◌, ◌+◌, ◌*◌, ◌/◌, ◌%◌, ◌^◌, ℕ, true, false, IfOk, IfErr, IfSome, IfNone, AllPairs, OnOk, length, map, slice_index};
ghost use Rattle.cell_net.specs.Arcs.{across, is_free};
ghost use Rattle.certificate.specs.Certificates.{claim_of, IsWellFormed};
ghost use Rattle.flow_net.specs.Firsts.{IsFirst};
ghost use Rattle.flow_net.specs.Nets.{flag_at};
ghost use Rattle.geo_sign.specs.Rising.{IsBefore};
ghost use Rattle.visibility.specs.Complexes.{Complex};
ghost use Rattle.visibility.specs.Scenes.{Scene};
ghost use Rattle.visibility.specs.Votes.{IsComplexOf};
ghost use Rattle.recon_check.specs.Claims.{AreThere};
ghost use Rattle.recon_check.specs.Lookups.{side_facet, AreNumbersApart, AreStarts, IsNoted, AreCellsFound, AreSidesFound};
ghost use Rattle.recon_check.specs.Over.{TellsOf};
ghost use Rattle.recon_check.specs.Stated.{IsFlaggedFor, IsStatedBy};
ghost use Rattle.recon_check.specs.Stops.{StopsFor};

use crate::lookup::{find, starts_of};
use crate::order::CellOrder;
use crate::stop::Stop;
use crate::{NoMemory, Reason};
use cell_net::{cell_row, facet_row, flag};
use cert_text::Row;
use certificate::{Certificate, FlowRow, SinkRow};
use flow_net::{Flow, Labels, Sequence};
use std::alloc::Global;
use tetra_store::Tetra;

/// What a certificate states about cells and sides, by their numbers in the store: side k of a cell has number 4 * id + k.
#[derive(Drop)]
pub struct Stated {
    /// The number of the cell of each inside row.
    pub cells: Vec<usize>,
    /// The number of the side of each flow row.
    pub sides: Vec<usize>,
    /// The number of the cell of each sink row.
    pub at_sinks: Vec<usize>,
    /// The labels: one flag for each cell number.
    pub labels: Labels,
    /// The flow over sides and into sinks.
    pub flow: Flow,
}

/// Writes a number at the row with this key, if there is one.
fn note<R: Row>(rows: &[R], starts: &[usize], key: &[u32], number: usize, numbers: &mut [usize])
    requires rising { AllPairs IsBefore (map R.key rows.now) }
    requires starts { AreStarts (map R.key rows.now) starts.now }
    requires count { length numbers.old ≡ length rows.now }
    ensures { IsNoted (map R.key rows.now) key.now number numbers.old numbers.new }
{
    if let Some(place) = find(rows, starts, key) {
        numbers[place] = number;
    }
}

/// Returns, for each row, the number of the cell in this order that it names, or the limit if it names none.
fn cells_in_order<R: Row>(
    alloc: Global,
    t: &Tetra,
    limit: usize,
    order: &CellOrder,
    rows: &[R],
    starts: &[usize],
) -> Result<Vec<usize>, NoMemory>
    requires rising { AllPairs IsBefore (map R.key rows.now) }
    requires starts { AreStarts (map R.key rows.now) starts.now }
    ensures { IfOk result (λ cells. AreCellsFound t.now.slots limit 0 (map R.key rows.now) cells.items) }
{
    let mut cells = vec![in alloc; limit; rows.len()]?;
    for number in order.numbers.as_slice() {
        if let Some(id) = t.id_at(*number as usize) {
            note(
                rows,
                starts,
                &cell_row(t.vertices(id)),
                id.number(),
                &mut cells,
            );
        }
    }
    Ok(cells)
}

/// Returns, for each row, the number of the cell that it names, or the limit if it names none. It looks up all cells.
fn all_cells<R: Row>(
    alloc: Global,
    t: &Tetra,
    limit: usize,
    rows: &[R],
    starts: &[usize],
) -> Result<Vec<usize>, NoMemory>
    requires rising { AllPairs IsBefore (map R.key rows.now) }
    requires starts { AreStarts (map R.key rows.now) starts.now }
    requires limit { length t.now.slots ≤ limit }
    ensures { IfOk result (λ cells. AreCellsFound t.now.slots limit limit (map R.key rows.now) cells.items) }
{
    let mut cells = vec![in alloc; limit; rows.len()]?;
    for number in 0..limit {
        if let Some(id) = t.id_at(number) {
            note(rows, starts, &cell_row(t.vertices(id)), number, &mut cells);
        }
    }
    Ok(cells)
}

/// Returns, for each row, the number of the cell that it names, or the limit if it names none. The order is a hint.
fn cells_of_rows<R: Row>(
    alloc: Global,
    t: &Tetra,
    limit: usize,
    order: &CellOrder,
    rows: &[R],
) -> Result<Vec<usize>, NoMemory>
    requires rising { AllPairs IsBefore (map R.key rows.now) }
    requires limit { length t.now.slots ≤ limit }
    ensures { IfOk result (λ cells. AreCellsFound t.now.slots limit limit (map R.key rows.now) cells.items) }
{
    let starts = starts_of(alloc, rows, t.vertex_count() as usize + 1)?;
    let cells = cells_in_order(alloc, t, limit, order, rows, &starts)?;
    match first_past(&cells, limit) {
        Some(_) => all_cells(alloc, t, limit, rows, &starts),
        None => Ok(cells),
    }
}

/// Returns the facet of the side with this number, if its adjacent cell is free.
fn open_facet(t: &Tetra, fixed: &[bool], number: usize) -> Option<[u32; 3]>
    ensures open { IfSome result (λ facet. is_free fixed.now (across t.now.slots number) ≡ true) }
    ensures facet { IfSome result (λ facet. facet ≡ side_facet t.now.slots number) }
    ensures none { IfNone result (is_free fixed.now (across t.now.slots number) ≡ false) }
{
    let side = (number % 4) as u8;
    let other = t.neighbor_at(number / 4, side)?;
    if flag(fixed, other) {
        return None;
    }
    let id = t.id_at(number / 4)?;
    Some(facet_row(t.vertices(id), side))
}

/// Writes the number of each side of a cell at the row that names it, if its adjacent cell is free.
fn note_sides(
    t: &Tetra,
    fixed: &[bool],
    cell: usize,
    rows: &[FlowRow],
    starts: &[usize],
    sides: &mut [usize],
)
    requires rising { AllPairs IsBefore (map (λ row. row.facet) rows.now) }
    requires starts { AreStarts (map (λ row. row.facet) rows.now) starts.now }
    requires few { cell < 2 ^ 32 }
    requires found { AreSidesFound t.now.slots fixed.now (4 * length fixed.now) 0 (map (λ row. row.facet) rows.now) sides.old }
    ensures { AreSidesFound t.now.slots fixed.now (4 * length fixed.now) 0 (map (λ row. row.facet) rows.now) sides.new }
{
    for side in 0..4 {
        let number = 4 * cell + side;
        if let Some(facet) = open_facet(t, fixed, number) {
            note(rows, starts, &facet, number, sides);
        }
    }
}

/// Returns, for each row, the number of the side of a cell in this order that it names, or the limit if it names none.
fn sides_in_order(
    alloc: Global,
    t: &Tetra,
    fixed: &[bool],
    order: &CellOrder,
    rows: &[FlowRow],
    starts: &[usize],
) -> Result<Vec<usize>, NoMemory>
    requires rising { AllPairs IsBefore (map (λ row. row.facet) rows.now) }
    requires starts { AreStarts (map (λ row. row.facet) rows.now) starts.now }
    requires few { length fixed.now < 2 ^ 32 }
    ensures { IfOk result (λ sides. AreSidesFound t.now.slots fixed.now (4 * length fixed.now) 0 (map (λ row. row.facet) rows.now) sides.items) }
{
    let mut sides = vec![in alloc; 4 * fixed.len(); rows.len()]?;
    for number in order.numbers.as_slice() {
        note_sides(t, fixed, *number as usize, rows, starts, &mut sides);
    }
    Ok(sides)
}

/// Returns, for each row, the number of the side that it names, or the limit if it names none. It looks up the sides of all cells.
fn all_sides(
    alloc: Global,
    t: &Tetra,
    fixed: &[bool],
    rows: &[FlowRow],
    starts: &[usize],
) -> Result<Vec<usize>, NoMemory>
    requires rising { AllPairs IsBefore (map (λ row. row.facet) rows.now) }
    requires starts { AreStarts (map (λ row. row.facet) rows.now) starts.now }
    requires flags { length t.now.slots ≤ length fixed.now }
    requires few { length fixed.now < 2 ^ 32 }
    ensures { IfOk result (λ sides. AreSidesFound t.now.slots fixed.now (4 * length fixed.now) (4 * length fixed.now) (map (λ row. row.facet) rows.now) sides.items) }
{
    let limit = 4 * fixed.len();
    let mut sides = vec![in alloc; limit; rows.len()]?;
    for number in 0..limit {
        if let Some(facet) = open_facet(t, fixed, number) {
            note(rows, starts, &facet, number, &mut sides);
        }
    }
    Ok(sides)
}

/// Returns, for each row, the number of the side that it names, or the limit if it names none. The order is a hint.
fn sides_of_rows(
    alloc: Global,
    t: &Tetra,
    fixed: &[bool],
    order: &CellOrder,
    rows: &[FlowRow],
) -> Result<Vec<usize>, NoMemory>
    requires rising { AllPairs IsBefore (map (λ row. row.facet) rows.now) }
    requires flags { length t.now.slots ≤ length fixed.now }
    requires few { length fixed.now < 2 ^ 32 }
    ensures { IfOk result (λ sides. AreSidesFound t.now.slots fixed.now (4 * length fixed.now) (4 * length fixed.now) (map (λ row. row.facet) rows.now) sides.items) }
{
    let starts = starts_of(alloc, rows, t.vertex_count() as usize + 1)?;
    let sides = sides_in_order(alloc, t, fixed, order, rows, &starts)?;
    match first_past(&sides, 4 * fixed.len()) {
        Some(_) => all_sides(alloc, t, fixed, rows, &starts),
        None => Ok(sides),
    }
}

/// Finds the index of the first number that is not below the limit.
fn first_past(numbers: &[usize], limit: usize) -> Option<usize>
    ensures some { IfSome result (IsFirst (length numbers.now) (λ k. limit ≤ slice_index numbers.now k)) }
    ensures none { IfNone result ((k : ℕ) → k < length numbers.now → slice_index numbers.now k < limit) }
{
    for (place, number) in numbers.iter().enumerate() {
        if *number >= limit {
            return Some(place);
        }
    }
    None
}

/// Returns `count` flags, set at these numbers.
fn flags_at(alloc: Global, numbers: &[usize], count: usize) -> Result<Vec<bool>, NoMemory>
    requires { (k : ℕ) → k < length numbers.now → slice_index numbers.now k < count }
    ensures count { IfOk result (λ flags. length flags.items ≡ count) }
    ensures set { IfOk result (λ flags. (k : ℕ) → k < length numbers.now → flag_at flags.items (slice_index numbers.now k) ≡ true) }
    ensures unset { IfOk result (λ flags. (v : ℕ) → ((k : ℕ) → k < length numbers.now → slice_index numbers.now k ≢ v) → flag_at flags.items v ≡ false) }
{
    let mut flags = vec![in alloc; false; count]?;
    for number in numbers {
        flags[*number] = true;
    }
    Ok(flags)
}

/// Returns `count` amounts: those of flow rows at their numbers, and 0 elsewhere.
fn flow_at(
    alloc: Global,
    rows: &[FlowRow],
    numbers: &[usize],
    count: usize,
) -> Result<Vec<u64>, NoMemory>
    requires many { length numbers.now ≡ length rows.now }
    requires within { (k : ℕ) → k < length numbers.now → slice_index numbers.now k < count }
    requires apart { AreNumbersApart numbers.now }
    ensures count { IfOk result (λ amounts. length amounts.items ≡ count) }
    ensures set { IfOk result (λ amounts. (k : ℕ) → k < length numbers.now → slice_index amounts.items (slice_index numbers.now k) ≡ slice_index (map (λ row. row.amount) rows.now) k) }
    ensures unset { IfOk result (λ amounts. (v : ℕ) → ((k : ℕ) → k < length numbers.now → slice_index numbers.now k ≢ v) → slice_index amounts.items v ≡ 0) }
{
    let mut amounts = vec![in alloc; 0; count]?;
    for (place, row) in rows.iter().enumerate() {
        amounts[numbers[place]] = row.amount;
    }
    Ok(amounts)
}

/// Returns `count` amounts: those of sink rows at their numbers, and 0 elsewhere.
fn sinks_at(
    alloc: Global,
    rows: &[SinkRow],
    numbers: &[usize],
    count: usize,
) -> Result<Vec<u64>, NoMemory>
    requires many { length numbers.now ≡ length rows.now }
    requires within { (k : ℕ) → k < length numbers.now → slice_index numbers.now k < count }
    requires apart { AreNumbersApart numbers.now }
    ensures count { IfOk result (λ amounts. length amounts.items ≡ count) }
    ensures set { IfOk result (λ amounts. (k : ℕ) → k < length numbers.now → slice_index amounts.items (slice_index numbers.now k) ≡ slice_index (map (λ row. row.amount) rows.now) k) }
    ensures unset { IfOk result (λ amounts. (v : ℕ) → ((k : ℕ) → k < length numbers.now → slice_index numbers.now k ≢ v) → slice_index amounts.items v ≡ 0) }
{
    let mut amounts = vec![in alloc; 0; count]?;
    for (place, row) in rows.iter().enumerate() {
        amounts[numbers[place]] = row.amount;
    }
    Ok(amounts)
}

/// Returns what a certificate states about the cells of a scene and their sides. The error is the first row that names none of these.
pub fn stated_by(
    alloc: Global,
    t: &Tetra,
    fixed: &[bool],
    cert: &Certificate,
) -> Result<Stated, Stop>
    requires formed { IsWellFormed (claim_of cert.now) }
    requires cells { (s : Scene) × IsFlaggedFor s t.now.slots fixed.now }
    requires few { length fixed.now < 2 ^ 32 }
    ensures stated { IfOk result (IsStatedBy t.now.slots fixed.now (claim_of cert.now)) }
    ensures there { (s : Scene) (complex : Complex) → IsFlaggedFor s t.now.slots fixed.now → IsComplexOf s complex → OnOk result (AreThere complex (claim_of cert.now)) }
    ensures stray { IfErr result (StopsFor (TellsOf t.now.slots fixed.now (claim_of cert.now))) }
{
    let limit = fixed.len();
    let order = CellOrder::new(alloc, t)?;
    let cells = cells_of_rows(alloc, t, limit, &order, &cert.inside)?;
    if let Some(place) = first_past(&cells, limit) {
        return Err(Stop::Fault(Reason::NoSuchCell { row: place as u64 }));
    }
    let sides = sides_of_rows(alloc, t, fixed, &order, &cert.flow)?;
    if let Some(place) = first_past(&sides, 4 * limit) {
        return Err(Stop::Fault(Reason::NoSuchFacet { row: place as u64 }));
    }
    let at_sinks = cells_of_rows(alloc, t, limit, &order, &cert.sink)?;
    drop(order);
    if let Some(place) = first_past(&at_sinks, limit) {
        return Err(Stop::Fault(Reason::NoSuchSink { row: place as u64 }));
    }
    let labels = Labels {
        inside: Sequence::from(flags_at(alloc, &cells, limit)?),
    };
    let flow = Flow {
        on_arc: Sequence::from(flow_at(alloc, &cert.flow, &sides, 4 * limit)?),
        on_sink: Sequence::from(sinks_at(alloc, &cert.sink, &at_sinks, limit)?),
    };
    Ok(Stated {
        cells,
        sides,
        at_sinks,
        labels,
        flow,
    })
}
