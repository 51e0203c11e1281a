//! Accumulates weights along sights.

ghost use Rattle.std.specs.Prelude.{◌≡◌, ◌<◌, ◌≤◌, ◌+◌, ◌*◌, ◌^◌, ℕ, [], IfOk, true, IsTrue, IsFalse, length, slice_index};
ghost use Rattle.geo_sign.specs.Rational.{displaced};
ghost use Rattle.geo_sign.specs.Sights.{is_behind};
ghost use Rattle.flow_net.specs.Weights.{IsSightList};
ghost use Rattle.tetra_store.specs.Delaunay.{IsDelaunay};
ghost use Rattle.tetra_store.specs.Links.{links_of, IsLive};
ghost use Rattle.tetra_store.specs.Store.{vertices_of};
ghost use Rattle.solution.specs.Counts.{added_by as added_by_sight, AreCounted};
ghost use Rattle.solution.specs.Lines.{CanFollow, IsLineOf, IsLineIn, added_on, added_behind, HasCounterRoom, IsCountedStep};

use crate::NoMemory;
use flow_net::Sight;
use geo_sign::Point;
use sight::{SightWalk, walk_into};
use std::alloc::{AllocError, Global};
use tetra_store::{CellId, MOST_CELLS, Tetra};
use tetra_walk::behind;
use watch::{Watch, tell};

/// Accumulated visibility weights: `crossed[4 * id + side]` per directed facet, and `behind[id]` for the cell behind each
/// sight's point.
#[derive(Drop)]
pub(crate) struct Counts {
    pub crossed: Vec<u32>,
    pub behind: Vec<u32>,
}

/// Returns the weight that a sight adds to each facet that it crosses and to the cell behind it.
fn added_by(sight: Sight) -> u32
    ensures { result ≡ added_by_sight sight }
{
    sight.weight
}

/// The linked cells, and the scanners with the cells that they are in.
#[derive(Clone, Copy)]
pub(crate) struct Located<'a> {
    pub(crate) t: &'a Tetra,
    pub(crate) scanners: &'a [Point],
    pub(crate) cells: &'a [CellId],
}

/// A sight to be traversed, from its vertex to its scanner in the cell `end`, with the weight that it adds.
#[derive(Clone, Copy)]
pub(crate) struct Line {
    pub(crate) vertex: u32,
    pub(crate) scanner: Point,
    pub(crate) end: CellId,
    pub(crate) added: u32,
}

/// Returns the line of a sight.
pub(crate) fn line_of(located: &Located<'_>, sight: Sight) -> Line
    requires scanner { sight.scanner < length located.now.scanners.now }
    requires cell { sight.scanner < length located.now.cells.now }
    ensures { IsLineOf located.now.scanners.now located.now.cells.now sight result }
{
    Line {
        vertex: sight.vertex,
        scanner: located.scanners[sight.scanner as usize],
        end: located.cells[sight.scanner as usize],
        added: added_by(sight),
    }
}

/// Returns the index of the counter of the facet through which a walk entered its current cell.
fn counter_of(along: &SightWalk<'_>) -> usize
    requires { 4 * along.now.at + along.now.entered < 2 ^ 64 }
    ensures { result ≡ 4 * along.now.at + along.now.entered }
{
    4 * along.end_cell().number() + along.entered()
}

/// Moves on along a sight by one facet and adds an amount for it. Returns false exactly if none is left.
fn count_next(t: &Tetra, along: &mut SightWalk<'_>, added: u32, crossed: &mut [u32]) -> bool
    requires store { along.old.store ≡ t.now }
    requires fits { 4 * length t.now.slots ≤ length crossed.old }
    requires room { HasCounterRoom along.old.to_come added crossed.old }
    ensures on { IsTrue result → IsCountedStep added along.old along.new crossed.old crossed.new }
    ensures out { IsFalse result → (along.old.to_come ≡ []) × (along.new ≡ along.old) × (crossed.new ≡ crossed.old) }
{
    let _store = t;
    if along.go_on() {
        crossed[counter_of(along)] += added;
        true
    } else {
        false
    }
}

/// Adds the weight of a line to each facet that it crosses.
fn count_crossed(t: &Tetra, line: &Line, crossed: &mut [u32])
    requires delaunay { IsDelaunay (vertices_of t.now) (links_of t.now.slots) }
    requires line { IsLineIn t.now line.now }
    requires fits { 4 * length t.now.slots ≤ length crossed.old }
    requires room { (id k : ℕ) → k < 4 → slice_index crossed.old (4 * id + k) + line.now.added < 2 ^ 32 }
    ensures count { length crossed.new ≡ length crossed.old }
    ensures added { (id k : ℕ) → k < 4 → slice_index crossed.new (4 * id + k) ≡ slice_index crossed.old (4 * id + k) + added_on t.now line.now id k }
{
    let mut along = walk_into(t, line.vertex, line.scanner, line.end);
    while count_next(t, &mut along, line.added, crossed) {}
}

/// Does the same for two lines, in turn, so that one advances while the other waits for memory.
fn count_crossed_by_two(t: &Tetra, one: &Line, other: &Line, crossed: &mut [u32])
    requires delaunay { IsDelaunay (vertices_of t.now) (links_of t.now.slots) }
    requires one { IsLineIn t.now one.now }
    requires other { IsLineIn t.now other.now }
    requires fits { 4 * length t.now.slots ≤ length crossed.old }
    requires room { (id k : ℕ) → k < 4 → slice_index crossed.old (4 * id + k) + (one.now.added + other.now.added) < 2 ^ 32 }
    ensures count { length crossed.new ≡ length crossed.old }
    ensures added { (id k : ℕ) → k < 4 → slice_index crossed.new (4 * id + k) ≡ slice_index crossed.old (4 * id + k) + (added_on t.now one.now id k + added_on t.now other.now id k) }
{
    let mut along_one = walk_into(t, one.vertex, one.scanner, one.end);
    let mut along_other = walk_into(t, other.vertex, other.scanner, other.end);
    loop {
        let one_goes_on = count_next(t, &mut along_one, one.added, crossed);
        let other_goes_on = count_next(t, &mut along_other, other.added, crossed);
        if !one_goes_on && !other_goes_on {
            return;
        }
    }
}

/// Adds the weight of a line to the cell behind it.
pub(crate) fn count_behind(t: &Tetra, line: &Line, before: &mut [u32])
    requires delaunay { IsDelaunay (vertices_of t.now) (links_of t.now.slots) }
    requires line { IsLineIn t.now line.now }
    requires fits { length t.now.slots ≤ length before.old }
    requires room { (id : ℕ) → IsLive (links_of t.now.slots) id → is_behind (vertices_of t.now) line.now.vertex (displaced line.now.scanner) ((links_of t.now.slots).at id) ≡ true → slice_index before.old id + line.now.added < 2 ^ 32 }
    ensures count { length before.new ≡ length before.old }
    ensures added { (id : ℕ) → slice_index before.new id ≡ slice_index before.old id + added_behind t.now line.now id }
{
    let id = behind(t, line.vertex, line.scanner);
    before[id.number()] += line.added;
}

/// Adds the weights of two lines, to each facet that they cross and to the cells behind them.
fn count_two(t: &Tetra, one: &Line, other: &Line, crossed: &mut [u32], before: &mut [u32])
    requires delaunay { IsDelaunay (vertices_of t.now) (links_of t.now.slots) }
    requires one { IsLineIn t.now one.now }
    requires other { IsLineIn t.now other.now }
    requires crossed_fit { 4 * length t.now.slots ≤ length crossed.old }
    requires before_fit { length t.now.slots ≤ length before.old }
    requires crossed_room { (id k : ℕ) → k < 4 → slice_index crossed.old (4 * id + k) + (one.now.added + other.now.added) < 2 ^ 32 }
    requires before_room { (id : ℕ) → slice_index before.old id + (one.now.added + other.now.added) < 2 ^ 32 }
    ensures crossed_count { length crossed.new ≡ length crossed.old }
    ensures before_count { length before.new ≡ length before.old }
    ensures facets { (id k : ℕ) → k < 4 → slice_index crossed.new (4 * id + k) ≡ slice_index crossed.old (4 * id + k) + (added_on t.now one.now id k + added_on t.now other.now id k) }
    ensures cells { (id : ℕ) → slice_index before.new id ≡ slice_index before.old id + (added_behind t.now one.now id + added_behind t.now other.now id) }
{
    count_crossed_by_two(t, one, other, crossed);
    count_behind(t, one, before);
    count_behind(t, other, before);
}

/// Adds up for each directed facet the weights of the sights that cross it, and for each cell those of the sights that it is
/// behind, given the cells of the scanners. Allocates memory for the counters alone, four of 32 bits for each number of a cell
/// and one more. Reports the number of counted sights to a progress callback.
pub(crate) fn count_sights<W: Watch>(
    alloc: Global,
    located: &Located<'_>,
    sights: &[Sight],
    watch: &mut W,
) -> Result<Counts, NoMemory>
    requires sights { CanFollow located.now sights.now }
    requires few { IsSightList sights.now }
    ensures { IfOk result (λ counts. AreCounted located.now.t.now located.now.scanners.now sights.now counts.crossed.items counts.behind.items) }
{
    let limit = located.t.number_limit();
    if limit > MOST_CELLS {
        return Err(AllocError);
    }
    let mut crossed = vec![in alloc; 0; 4 * limit]?;
    let mut behind = vec![in alloc; 0; limit]?;
    let mut k = 0;
    while k + 1 < sights.len() {
        tell(watch, k);
        let one = line_of(located, sights[k]);
        let other = line_of(located, sights[k + 1]);
        count_two(located.t, &one, &other, &mut crossed, &mut behind);
        k += 2;
    }
    if k < sights.len() {
        let last = line_of(located, sights[k]);
        count_crossed(located.t, &last, &mut crossed);
        count_behind(located.t, &last, &mut behind);
    }
    Ok(Counts { crossed, behind })
}
