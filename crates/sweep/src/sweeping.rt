//! A sweep: a scan's best surface at one area weight, which can be raised. Depends on the linked cells and counts of a scan as
//! a network, on `max_flow` and on `surface`.

ghost use Rattle.std.specs.Prelude.{◌≡◌, ◌<◌, ◌≤◌, IfOk, OnOk, OnErr};
ghost use Rattle.flow_net.specs.declared.votes.TheConstants.{WEIGHT_LIMIT};
ghost use Rattle.mesh.specs.Meshes.{IsMesh};
ghost use Rattle.scan_rows.specs.Views.{shown_of};
ghost use Rattle.solution.specs.Solutions.{surface_of};
ghost use Rattle.surface.specs.Closed.{IsClosed};
ghost use Rattle.sweep.specs.Entries.{CostsLeast, IsSurfaceOf};
ghost use Rattle.sweep.specs.Swept.{IsOf, HasLargest, IsRaised, scene_in};

use crate::NoMemory;
use cell_net::CellNetwork;
use flow_net::{Flow, FlowHints, Labels, Settings, cost};
use geo_sign::Point;
use max_flow::{minimum_cut_above, minimum_cut_and_preflow};
use mesh::Mesh;
use scan_rows::Scan;
use solution::{SeenPoints, Votes, counted_cells_with, seen_in};
use std::alloc::Global;
use std::marker::Model;
use surface::facets_by_number;
use tetra_store::Tetra;
use watch::Silent;

/// The best surface of a scan at one area weight, with a maximum flow, which is kept when the weight is raised.
///
/// Contracts see its points, scanners and sights, the weights, the cells by their numbers in the store, and the flow.
///
/// During a raise it takes a second flow.
#[derive(Drop)]
pub struct Sweep {
    /// The allocator with which it was made.
    alloc: Global,
    /// The distinct points and the sights.
    seen: SeenPoints,
    /// The scanners.
    scanners: Vec<Point>,
    /// The visibility weight, and the current area weight.
    settings: Settings,
    /// The linked cells.
    tetra: Tetra,
    /// The accumulated visibility weights.
    votes: Votes,
    /// A maximum flow, by the numbers of cells and sides.
    flow: Flow,
    /// The minimum cut with the smallest inside, by the numbers of cells.
    labels: Labels,
}

impl Model for Sweep {
    ghost use Rattle.sweep.specs.Swept.{Swept, IsKept};

    ghost Value = { Swept };

    ghost view = { λ s. record { points = s.seen.points.items; scanners = s.scanners.items; sights = s.seen.sights.items; settings = s.settings; slots = s.tetra.slots; flow = s.flow } };

    ghost invariant = { λ s. IsKept s.seen.points.items s.scanners.items s.seen.sights.items s.settings s.tetra s.votes.crossed.items s.votes.behind.items s.votes.fixed.items s.flow s.labels };
}

impl Sweep {
    /// Returns the best surface of a scan at these weights. The only error is out of memory.
    pub fn start(alloc: Global, scan: &Scan, settings: Settings) -> Result<Sweep, NoMemory>
        ensures scan { IfOk result (λ sweep. IsOf sweep (shown_of scan.now)) }
        ensures settings { IfOk result (λ sweep. sweep.settings ≡ settings) }
        ensures largest { IfOk result (λ sweep. HasLargest sweep) }
    {
        Sweep::start_watched(alloc, scan, settings, &mut Silent)
    }

    /// Returns the same with the hints of a progress callback, to which it reports the stages of the work.
    pub fn start_watched<W: FlowHints>(
        alloc: Global,
        scan: &Scan,
        settings: Settings,
        watch: &mut W,
    ) -> Result<Sweep, NoMemory>
        ensures scan { IfOk result (λ sweep. IsOf sweep (shown_of scan.now)) }
        ensures settings { IfOk result (λ sweep. sweep.settings ≡ settings) }
        ensures largest { IfOk result (λ sweep. HasLargest sweep) }
    {
        Sweep::start_hinted(alloc, scan, settings, &mut None, watch)
    }

    /// Returns the same, and keeps what the hint leaves for the next raise.
    pub(crate) fn start_hinted<W: FlowHints>(
        alloc: Global,
        scan: &Scan,
        settings: Settings,
        kept: &mut Option<W::Kept>,
        watch: &mut W,
    ) -> Result<Sweep, NoMemory>
        ensures scan { IfOk result (λ sweep. IsOf sweep (shown_of scan.now)) }
        ensures settings { IfOk result (λ sweep. sweep.settings ≡ settings) }
        ensures largest { IfOk result (λ sweep. HasLargest sweep) }
    {
        let seen = seen_in(alloc, scan)?;
        let (tetra, votes) = counted_cells_with(alloc, scan, &seen, settings, watch)?;
        let net = CellNetwork::new(&tetra, votes.store_counts(), settings);
        let (flow, labels, left) = minimum_cut_and_preflow(alloc, &net, watch)?;
        *kept = left;
        let scanners = Vec::from_slice(alloc, &scan.scanners)?;
        Ok(Sweep {
            alloc,
            seen,
            scanners,
            settings,
            tetra,
            votes,
            flow,
            labels,
        })
    }

    /// Raises the area weight. The flow resumes from its previous state, so that no less flows into the sink of any cell.
    ///
    /// It takes no hints. After `NoMemory` everything is unchanged.
    pub fn raise(&mut self, smooth: u32) -> Result<(), NoMemory>
        requires above { self.old.settings.smooth < smooth }
        requires within { smooth ≤ WEIGHT_LIMIT }
        ensures raised { OnOk result (IsRaised self.old self.new smooth) }
        ensures kept { OnErr result (self.new ≡ self.old) }
        ensures largest { HasLargest self.new }
    {
        self.raise_hinted(smooth, &mut None, &mut Silent)
    }

    /// Raises the area weight with the hints of a progress callback, which resume from what an earlier hint left, if anything is kept.
    ///
    /// After `NoMemory` everything that contracts see is unchanged, and the next raise may take longer.
    pub(crate) fn raise_hinted<W: FlowHints>(
        &mut self,
        smooth: u32,
        kept: &mut Option<W::Kept>,
        watch: &mut W,
    ) -> Result<(), NoMemory>
        requires above { self.old.settings.smooth < smooth }
        requires within { smooth ≤ WEIGHT_LIMIT }
        ensures raised { OnOk result (IsRaised self.old self.new smooth) }
        ensures kept { OnErr result (self.new ≡ self.old) }
        ensures largest { HasLargest self.new }
    {
        let settings = Settings {
            vote: self.settings.vote,
            smooth,
        };
        let net = CellNetwork::new(&self.tetra, self.votes.store_counts(), settings);
        let (flow, labels) = minimum_cut_above(self.alloc, &net, &self.flow, kept, watch)?;
        self.flow = flow;
        self.labels = labels;
        self.settings = settings;
        Ok(())
    }

    /// Returns the current area weight.
    pub fn smooth(&self) -> u32
        ensures { result ≡ self.now.settings.smooth }
    {
        self.settings.smooth
    }

    /// Returns the cost of the best surface: the least cost of labels of the scan's cells at these weights.
    pub fn cost(&self) -> u64
        ensures { CostsLeast (scene_in self.now) result }
    {
        let net = CellNetwork::new(&self.tetra, self.votes.store_counts(), self.settings);
        cost(&net, &self.labels) as u64
    }

    /// Returns the mesh of the best surface: that of the facets of outside cells whose adjacent cell is inside, by the labels
    /// of least cost whose inside is smallest. It is closed. The only error is out of memory.
    pub fn mesh(&self) -> Result<Mesh, NoMemory>
        ensures surface { IfOk result (λ mesh. IsSurfaceOf (scene_in self.now) self.now.points (surface_of mesh)) }
        ensures valid { IfOk result (λ mesh. IsMesh mesh.points.items mesh.faces.items) }
        ensures closed { IfOk result (λ mesh. IsClosed mesh.faces.items) }
    {
        facets_by_number(self.alloc, &self.tetra, self.labels.inside.as_slice())
    }
}
