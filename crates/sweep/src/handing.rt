//! The surfaces of a sweep, passed to writers. Depends on the sweep and on `mesh_form`.

ghost use Rattle.std.specs.Prelude.{◌≡◌, ◌≤◌, ◌+◌, ◌*◌, ◌-◌, IfOk, OnOk, OnErr, All, length, map};
ghost use Rattle.flow_net.specs.declared.votes.TheConstants.{WEIGHT_LIMIT};
ghost use Rattle.mesh_form.specs.Received.{IsFresh};
ghost use Rattle.scan_rows.specs.Views.{shown_of};
ghost use Rattle.sweep.specs.Entries.{CostsAt, HasEntry, HasEntryFront, HaveEntries, HaveEntryFronts, given_by, smoothing_of};
ghost use Rattle.sweep.specs.Swept.{given_in};

use crate::NoMemory;
use crate::sweeping::Sweep;
use flow_net::{FlowHints, Settings};
use mesh_form::{Form, drive};
use scan_rows::Scan;
use std::alloc::Global;
use watch::{Silent, Stage};

/// The costs of the first and the last surface of a sweep.
#[derive(Clone, Copy, Debug, PartialEq, Eq)]
pub struct Costs {
    /// At the smallest area weight.
    pub first: u64,
    /// At the largest area weight.
    pub last: u64,
}

/// Passes the surface of a sweep to a fresh writer.
fn hand_surface(sweep: &Sweep, form: &mut Box<dyn Form>) -> Result<(), NoMemory>
    requires { IsFresh (received form.old) }
    ensures all { OnOk result (HasEntry (given_in sweep.now) sweep.now.settings.vote sweep.now.settings.smooth (received form.new)) }
    ensures front { OnErr result (HasEntryFront (given_in sweep.now) sweep.now.settings.vote sweep.now.settings.smooth (received form.new)) }
    ensures kind { form.new.vtable ≡ form.old.vtable }
{
    let mesh = sweep.mesh()?;
    drive(form, &mesh)?;
    Ok(())
}

/// Raises the area weight of a sweep to this one, unless it is there already.
fn raise_to<W: FlowHints>(
    sweep: &mut Sweep,
    smooth: u32,
    kept: &mut Option<W::Kept>,
    watch: &mut W,
) -> Result<(), NoMemory>
    requires above { sweep.old.settings.smooth ≤ smooth }
    requires within { smooth ≤ WEIGHT_LIMIT }
    ensures given { OnOk result (given_in sweep.new ≡ given_in sweep.old) }
    ensures vote { OnOk result (sweep.new.settings.vote ≡ sweep.old.settings.vote) }
    ensures smooth { OnOk result (sweep.new.settings.smooth ≡ smooth) }
{
    if sweep.smooth() < smooth {
        sweep.raise_hinted(smooth, kept, watch)?;
    }
    Ok(())
}

/// Passes the surface of a sweep to the first of these fresh writers, and to each further one the surface at an area weight
/// larger by a step. Takes hints from a progress callback, and reports the stage and the number of surfaces to it.
fn hand_rising<W: FlowHints>(
    sweep: &mut Sweep,
    step: u32,
    forms: &mut [Box<dyn Form>],
    kept: &mut Option<W::Kept>,
    watch: &mut W,
) -> Result<(), NoMemory>
    requires fresh { All IsFresh (map (λ form. received form) forms.old) }
    requires rises { 1 ≤ step }
    requires within { smoothing_of sweep.old.settings.smooth step (length forms.old - 1) ≤ WEIGHT_LIMIT }
    ensures given { OnOk result (given_in sweep.new ≡ given_in sweep.old) }
    ensures vote { OnOk result (sweep.new.settings.vote ≡ sweep.old.settings.vote) }
    ensures smooth { OnOk result (sweep.new.settings.smooth ≡ smoothing_of sweep.old.settings.smooth step (length forms.old - 1)) }
    ensures all { OnOk result (HaveEntries (given_in sweep.old) sweep.old.settings.vote sweep.old.settings.smooth step (map (λ form. received form) forms.new)) }
    ensures fronts { OnErr result (HaveEntryFronts (given_in sweep.old) sweep.old.settings.vote sweep.old.settings.smooth step (map (λ form. received form) forms.new)) }
    ensures kinds { map (λ form. form.vtable) forms.new ≡ map (λ form. form.vtable) forms.old }
{
    watch.stage(Stage::Surfaces, forms.len() as u64);
    let from = sweep.smooth();
    for k in 0..forms.len() {
        watch.done(k as u64);
        raise_to(sweep, from + k as u32 * step, kept, watch)?;
        hand_surface(sweep, &mut forms[k])?;
    }
    Ok(())
}

/// Passes the best surface of a scan to the first of these fresh writers, and to each further one the surface at an area weight
/// larger by a step. Returns the costs of the first and the last.
///
/// After `NoMemory` each writer is fresh, or has received a prefix of its surface, possibly all of it.
pub fn hand_surfaces(
    alloc: Global,
    scan: &Scan,
    settings: Settings,
    step: u32,
    forms: &mut [Box<dyn Form>],
) -> Result<Costs, NoMemory>
    requires fresh { All IsFresh (map (λ form. received form) forms.old) }
    requires rises { 1 ≤ step }
    requires within { smoothing_of settings.smooth step (length forms.old - 1) ≤ WEIGHT_LIMIT }
    ensures all { OnOk result (HaveEntries (given_by (shown_of scan.now)) settings.vote settings.smooth step (map (λ form. received form) forms.new)) }
    ensures first { IfOk result (λ costs. CostsAt (given_by (shown_of scan.now)) settings.vote settings.smooth costs.first) }
    ensures last { IfOk result (λ costs. CostsAt (given_by (shown_of scan.now)) settings.vote (smoothing_of settings.smooth step (length forms.old - 1)) costs.last) }
    ensures fronts { OnErr result (HaveEntryFronts (given_by (shown_of scan.now)) settings.vote settings.smooth step (map (λ form. received form) forms.new)) }
    ensures kinds { map (λ form. form.vtable) forms.new ≡ map (λ form. form.vtable) forms.old }
{
    hand_surfaces_watched(alloc, scan, settings, step, forms, &mut Silent)
}

/// Returns the same with the hints of a progress callback, to which it reports the stages of the work.
pub fn hand_surfaces_watched<W: FlowHints>(
    alloc: Global,
    scan: &Scan,
    settings: Settings,
    step: u32,
    forms: &mut [Box<dyn Form>],
    watch: &mut W,
) -> Result<Costs, NoMemory>
    requires fresh { All IsFresh (map (λ form. received form) forms.old) }
    requires rises { 1 ≤ step }
    requires within { smoothing_of settings.smooth step (length forms.old - 1) ≤ WEIGHT_LIMIT }
    ensures all { OnOk result (HaveEntries (given_by (shown_of scan.now)) settings.vote settings.smooth step (map (λ form. received form) forms.new)) }
    ensures first { IfOk result (λ costs. CostsAt (given_by (shown_of scan.now)) settings.vote settings.smooth costs.first) }
    ensures last { IfOk result (λ costs. CostsAt (given_by (shown_of scan.now)) settings.vote (smoothing_of settings.smooth step (length forms.old - 1)) costs.last) }
    ensures fronts { OnErr result (HaveEntryFronts (given_by (shown_of scan.now)) settings.vote settings.smooth step (map (λ form. received form) forms.new)) }
    ensures kinds { map (λ form. form.vtable) forms.new ≡ map (λ form. form.vtable) forms.old }
{
    let mut kept = None;
    let mut sweep = Sweep::start_hinted(alloc, scan, settings, &mut kept, watch)?;
    let first = sweep.cost();
    hand_rising(&mut sweep, step, forms, &mut kept, watch)?;
    Ok(Costs {
        first,
        last: sweep.cost(),
    })
}
