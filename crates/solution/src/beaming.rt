//! Accumulates weights along the sights of one scanner after another, all of a scanner at once (`beam`).

ghost use Rattle.std.specs.Prelude.{◌≡◌, ◌<◌, ◌≤◌, ◌+◌, ◌*◌, ◌^◌, ℕ, All, IfOk, OnOk, IsTrue, length, map, take, slice_index, slice_index_or};
ghost use Rattle.flow_net.specs.declared.votes.TheConstants.{SIGHT_LIMIT};
ghost use Rattle.tetra_store.specs.Links.{links_of, IsLive};
ghost use Rattle.tetra_store.specs.Store.{vertices_of};
ghost use Rattle.solution.specs.Counts.{IsInRange};
ghost use Rattle.solution.specs.Lines.{CanFollow};
ghost use Rattle.solution.specs.LongSights.{ray_of as ray_of_sight, IsOfScanner, IsRoomFor, AreAdded, IsCellRoom, AreCellsAdded};

use crate::NoMemory;
use crate::tally::{Counts, Located, count_behind, line_of};
use beam::{Beams, Ray, View};
use flow_net::Sight;
use std::alloc::Global;
use tetra_store::Tetra;
use watch::Watch;

/// The most sights that are followed at once: so that they stay in a cache.
const MOST_AT_ONCE: usize = 16_384;

/// Returns a sight as it is followed.
fn ray_of(t: &Tetra, sight: Sight) -> Ray
    requires { sight.vertex < length t.now.points }
    ensures { result ≡ ray_of_sight t.now sight }
{
    Ray {
        point: t.point(sight.vertex),
        vertex: sight.vertex,
        added: sight.weight,
    }
}

/// Returns sights as they are followed.
fn rays_of(alloc: Global, located: &Located<'_>, sights: &[Sight]) -> Result<Vec<Ray>, NoMemory>
    requires { All (IsInRange (vertices_of located.now.t.now) located.now.scanners.now) sights.now }
    ensures { IfOk result (λ rays. rays.items ≡ map (ray_of_sight located.now.t.now) sights.now) }
{
    let mut rays = Vec::with_capacity(alloc, sights.len())?;
    for sight in sights {
        rays.push(ray_of(located.t, *sight))?;
    }
    Ok(rays)
}

/// The first sights of a list that have one scanner: its index, and their number.
#[derive(Clone, Copy)]
struct Group {
    scanner: u32,
    count: usize,
}

/// Returns whether a sight at an index has this scanner, and sights up to it are not too many to be followed at once.
fn goes_on(sights: &[Sight], index: usize, scanner: u32) -> bool
    ensures { IsTrue result → (index < length sights.now) × ((d : Sight) → (slice_index_or sights.now index d).scanner ≡ scanner) }
{
    if index >= MOST_AT_ONCE {
        return false;
    }
    match sights.get(index) {
        Some(sight) => sight.scanner == scanner,
        None => false,
    }
}

/// Returns the first sights that have one scanner, but not more than are followed at once.
fn group_of(located: &Located<'_>, sights: &[Sight]) -> Group
    requires some { 0 < length sights.now }
    requires range { All (IsInRange (vertices_of located.now.t.now) located.now.scanners.now) sights.now }
    ensures scanner { result.scanner < length located.now.scanners.now }
    ensures some { 0 < result.count }
    ensures within { result.count ≤ length sights.now }
    ensures same { All (IsOfScanner result.scanner) (take result.count sights.now) }
{
    let _located = located;
    let scanner = sights[0].scanner;
    let mut count: usize = 1;
    while goes_on(sights, count, scanner) {
        count += 1;
    }
    Group { scanner, count }
}

/// Adds the weights of sights to the cells behind their points.
fn count_cells(located: &Located<'_>, sights: &[Sight], behind: &mut [u32])
    requires sights { CanFollow located.now sights.now }
    requires fits { length located.now.t.now.slots ≤ length behind.old }
    requires room { IsCellRoom located.now.t.now located.now.scanners.now sights.now behind.old }
    ensures count { length behind.new ≡ length behind.old }
    ensures added { AreCellsAdded located.now.t.now located.now.scanners.now sights.now behind.old behind.new }
{
    let mut k = 0;
    while k < sights.len() {
        let line = line_of(located, sights[k]);
        count_behind(located.t, &line, behind);
        k += 1;
    }
}

/// Adds the weights of sights of one scanner to the facets that they cross.
fn count_facets(
    alloc: Global,
    located: &Located<'_>,
    sights: &[Sight],
    number: u32,
    beams: &mut Beams,
    crossed: &mut [u32],
) -> Result<(), NoMemory>
    requires sights { CanFollow located.now sights.now }
    requires scanner { number < length located.now.scanners.now }
    requires same { All (IsOfScanner number) sights.now }
    requires fits { 4 * length located.now.t.now.slots ≤ length crossed.old }
    requires room { IsRoomFor located.now.t.now located.now.scanners.now sights.now crossed.old }
    ensures count { length crossed.new ≡ length crossed.old }
    ensures added { OnOk result (AreAdded located.now.t.now located.now.scanners.now sights.now crossed.old crossed.new) }
{
    let rays = rays_of(alloc, located, sights)?;
    let k = number as usize;
    let view = View {
        t: located.t,
        s: located.scanners[k],
    };
    beams.count(alloc, &view, located.cells[k], rays, crossed)?;
    Ok(())
}

/// Adds the weights of sights to the facets that they cross, those of one scanner after another. Reports the number of counted
/// sights to a progress callback, of all that there are.
fn count_all_facets<W: Watch>(
    alloc: Global,
    located: &Located<'_>,
    sights: &[Sight],
    all: usize,
    crossed: &mut [u32],
    watch: &mut W,
) -> Result<(), NoMemory>
    requires sights { CanFollow located.now sights.now }
    requires few { length sights.now ≤ SIGHT_LIMIT }
    requires fits { 4 * length located.now.t.now.slots ≤ length crossed.old }
    requires room { IsRoomFor located.now.t.now located.now.scanners.now sights.now crossed.old }
    ensures count { length crossed.new ≡ length crossed.old }
    ensures added { OnOk result (AreAdded located.now.t.now located.now.scanners.now sights.now crossed.old crossed.new) }
{
    let mut beams = Beams::new(alloc, located.t)?;
    let mut rest = sights;
    while rest.len() > 0 {
        watch.done(all.saturating_sub(rest.len()) as u64);
        let group = group_of(located, rest);
        count_facets(
            alloc,
            located,
            &rest[..group.count],
            group.scanner,
            &mut beams,
            crossed,
        )?;
        rest = &rest[group.count..];
    }
    Ok(())
}

/// Adds the weights of sights to the facets that they cross and to the cells behind their points. Sights of one scanner are
/// followed together if they are next to each other.
pub(crate) fn count_together<W: Watch>(
    alloc: Global,
    located: &Located<'_>,
    sights: &[Sight],
    all: usize,
    counts: &mut Counts,
    watch: &mut W,
) -> Result<(), NoMemory>
    requires sights { CanFollow located.now sights.now }
    requires few { length sights.now ≤ SIGHT_LIMIT }
    requires crossed_fit { 4 * length located.now.t.now.slots ≤ length counts.old.crossed.items }
    requires behind_fit { length located.now.t.now.slots ≤ length counts.old.behind.items }
    requires crossed_room { IsRoomFor located.now.t.now located.now.scanners.now sights.now counts.old.crossed.items }
    requires behind_room { IsCellRoom located.now.t.now located.now.scanners.now sights.now counts.old.behind.items }
    ensures crossed_count { length counts.new.crossed.items ≡ length counts.old.crossed.items }
    ensures behind_count { length counts.new.behind.items ≡ length counts.old.behind.items }
    ensures facets { OnOk result (AreAdded located.now.t.now located.now.scanners.now sights.now counts.old.crossed.items counts.new.crossed.items) }
    ensures cells { OnOk result (AreCellsAdded located.now.t.now located.now.scanners.now sights.now counts.old.behind.items counts.new.behind.items) }
{
    if sights.len() == 0 {
        return Ok(());
    }
    count_cells(located, sights, &mut counts.behind);
    count_all_facets(alloc, located, sights, all, &mut counts.crossed, watch)?;
    Ok(())
}
