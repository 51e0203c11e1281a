//! What a scan shows, as calls take it.

use flow_net::{Settings, Sight};
use geo_sign::Point;

/// What a scan shows. Contracts see it as a scene: the box's corners and the points as vertices, the scanners, the sights, the settings.
#[derive(Clone, Copy, Debug)]
pub struct Scene<'a> {
    /// The points. The first is vertex 8, after the box's eight corners.
    pub points: &'a [Point],
    /// The scanners, those that see nothing included.
    pub scanners: &'a [Point],
    /// The sights, equal ones as often as they were seen. A sight's scanner is its index in `scanners`.
    pub sights: &'a [Sight],
    /// The visibility weight and the area weight.
    pub settings: Settings,
}
