//! What cells are voted on by: the settings and the sights. It depends on nothing else.

ghost use Rattle.std.specs.Prelude.{◌≡◌, ◌≤◌, ◌↔◌, IsSome, IsTrue, IfSome};
ghost use Rattle.flow_net.specs.Weights.{IsSightList, IsWeighed};
ghost use Rattle.flow_net.specs.declared.votes.TheConstants.{WEIGHT_LIMIT};

/// The largest visibility weight and area weight.
pub const WEIGHT_LIMIT: u32 = 65_535;

/// The most sights of a network.
pub const SIGHT_LIMIT: usize = 8_388_608;

/// The largest weight of a sight.
pub const SIGHT_WEIGHT_LIMIT: u32 = 255;

/// The two weights of the energy, both without unit: the visibility weight, and the area weight, which is the same for each
/// facet, whatever its area.
#[derive(Clone, Copy, Debug, PartialEq, Eq)]
pub struct Settings {
    /// What each sight of weight 1 adds to the capacity of a facet that it crosses and to the sink of the cell behind it, 1 to 65,535.
    pub vote: u32,
    /// What each facet has as capacity beside the visibility weights, 0 to 65,535.
    pub smooth: u32,
    pub ghost vote_at_least: { 1 ≤ vote },
    pub ghost vote_at_most: { vote ≤ WEIGHT_LIMIT },
    pub ghost smooth_at_most: { smooth ≤ WEIGHT_LIMIT },
}

impl Settings {
    /// The settings of these weights, or None where a weight is out of its range.
    pub fn new(vote: u32, smooth: u32) -> Option<Settings>
        ensures within { IsSome result ↔ ((1 ≤ vote) × (vote ≤ WEIGHT_LIMIT) × (smooth ≤ WEIGHT_LIMIT)) }
        ensures vote { IfSome result (λ settings. settings.vote ≡ vote) }
        ensures smooth { IfSome result (λ settings. settings.smooth ≡ smooth) }
    {
        if vote < 1 || vote > WEIGHT_LIMIT || smooth > WEIGHT_LIMIT {
            return None;
        }
        Some(Settings { vote, smooth })
    }
}

/// A line of sight, in short a sight: a scanner saw a vertex.
#[derive(Clone, Copy, Debug, PartialEq, Eq)]
pub struct Sight {
    /// The number of the vertex that was seen, from 8 on: the corners of the box round all vertices have 0 to 7.
    pub vertex: u32,
    /// The index of the scanner in the list of scanners.
    pub scanner: u32,
    /// How much it counts: as much as this number of sights of weight 1. It is 1 to 255.
    pub weight: u32,
}

/// Whether a sight has a weight that it may have.
fn is_weighed(sight: &Sight) -> bool
    ensures { IsTrue result ↔ IsWeighed sight.now }
{
    sight.weight >= 1 && sight.weight <= SIGHT_WEIGHT_LIMIT
}

/// Whether a network may be made of these sights: there are at most [`SIGHT_LIMIT`], each of a weight from 1 to
/// [`SIGHT_WEIGHT_LIMIT`].
pub fn are_sights(sights: &[Sight]) -> bool
    ensures { IsTrue result ↔ IsSightList sights.now }
{
    sights.len() <= SIGHT_LIMIT && sights.iter().all(|sight| is_weighed(sight))
}
