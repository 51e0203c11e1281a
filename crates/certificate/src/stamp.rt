//! The fingerprint of the input, which identifies the scan of a certificate.

ghost use Rattle.certificate.specs.Stamps.{IsDigest, IsUnit, IsFixed};

use geo_sign::Point;

/// The greatest scale: a million scaled units in one unit of a file.
pub const UNIT_LIMIT: u32 = 1_000_000;

/// The file of a scan and the options with which it was read: the input that a certificate belongs to.
///
/// The scale is 1 to 1,000,000, and a fixed scanner is a data point.
#[derive(Clone, Copy, Debug, PartialEq, Eq)]
pub struct Stamp {
    /// The SHA-256 of the file's bytes.
    pub digest: [u8; 32],
    /// The scale: scaled units in one unit of the file.
    pub unit: u32,
    /// The position from which all points were seen, in scaled units, if it was given as an option.
    pub fixed: Option<Point>,
    pub ghost digest_is: { IsDigest digest },
    pub ghost unit_is: { IsUnit unit },
    pub ghost fixed_is: { IsFixed fixed },
}
