//! The type of scans, and its invariant. Depends on the points of `geo_sign`.

ghost use Rattle.std.specs.Prelude.{◌≤◌, length, All, AllPairs};
ghost use Rattle.geo_sign.specs.Point.{IsWithin};
ghost use Rattle.scan_rows.specs.ScanRows.{point_limit, scanner_limit, sight_limit};
ghost use Rattle.scan_rows.specs.Shown.{IsSeen, IsNoEarlier, WeighsAlike};
ghost use Rattle.geo_sign.specs.declared.point.TheConstants.{DATA_LIMIT};

use geo_sign::Point;

/// The maximal number of vertex rows of a scan: 2^20.
pub const POINT_LIMIT: u32 = geo_sign::POINT_LIMIT;

/// The maximal number of scanner rows of a scan: 2^16.
pub const SCANNER_LIMIT: u32 = 65_536;

/// The maximal number of sights of a scan: 2^23, no more than a network has.
pub const SIGHT_LIMIT: usize = 8_388_608;

/// The largest weight of a sight, no larger than in a network.
pub const SIGHT_WEIGHT_LIMIT: u8 = 255;

/// A sight: a point that a scanner saw, and its weight.
#[derive(Clone, Copy, Debug, PartialEq, Eq)]
pub struct Seen {
    /// The number of the point, counted from 0.
    pub row: u32,
    /// The number of the scanner, counted from 0.
    pub scanner: u32,
    /// The weight of the sight, 1 to 255.
    pub weight: u8,
}

/// A scan: points, the scanners' positions, and which scanners saw which points.
///
/// All positions are data points: integer coordinates in scaled units, with absolute values of at most 2^21 - 1. Points may be
/// equal, a scanner may see no point, and a point may be seen by no scanner, by several, and by one more than once.
#[derive(Debug, Drop)]
pub struct Scan {
    /// The points in the order of their rows.
    pub points: Vec<Point>,
    /// The positions of the scanners.
    pub scanners: Vec<Point>,
    /// The sights in the order of their points; those of one point have the same weight.
    pub seen: Vec<Seen>,
    pub ghost points_are_data: { All (IsWithin DATA_LIMIT) points.items },
    pub ghost scanners_are_data: { All (IsWithin DATA_LIMIT) scanners.items },
    pub ghost seen_are_there: { All (IsSeen (length points.items) (length scanners.items)) seen.items },
    pub ghost seen_in_order: { AllPairs IsNoEarlier seen.items },
    pub ghost seen_of_one_weight: { AllPairs WeighsAlike seen.items },
    pub ghost points_fit: { length points.items ≤ point_limit },
    pub ghost scanners_fit: { length scanners.items ≤ scanner_limit },
    pub ghost sights_fit: { length seen.items ≤ sight_limit },
}
