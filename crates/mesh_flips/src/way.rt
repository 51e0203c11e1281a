//! Vectors in floating point, for the choice of flips and of places. No clause depends on them.

use geo_sign::Point;

/// A vector of three floating-point numbers. No clause says anything of its value.
#[derive(Clone, Copy, Debug)]
pub struct Way {
    /// The first coordinate.
    pub x: f64,
    /// The second coordinate.
    pub y: f64,
    /// The third coordinate.
    pub z: f64,
}

const HALF_TURN: f64 = 3.141592653589793;

/// Returns the arc cosine of a number from 0 to 1, divided by the root of its distance from 1, with an error below 2e-8 (Abramowitz and
/// Stegun, 4.4.46).
fn arc_part(x: f64) -> f64 {
    let high = ((-0.0012624911 * x + 0.0066700901) * x - 0.0170881256) * x + 0.0308918810;
    let middle = (high * x - 0.0501743046) * x + 0.0889789874;
    (middle * x - 0.2145988016) * x + 1.5707963050
}

impl Way {
    /// The zero vector.
    pub const NONE: Way = Way {
        x: 0.0,
        y: 0.0,
        z: 0.0,
    };

    /// Returns the vector from one point to another.
    pub fn between(a: Point, b: Point) -> Way {
        Way {
            x: f64::from(b.x()) - f64::from(a.x()),
            y: f64::from(b.y()) - f64::from(a.y()),
            z: f64::from(b.z()) - f64::from(a.z()),
        }
    }

    /// Returns the cross product.
    pub fn across(self, other: Way) -> Way {
        Way {
            x: self.y * other.z - self.z * other.y,
            y: self.z * other.x - self.x * other.z,
            z: self.x * other.y - self.y * other.x,
        }
    }

    /// Returns the scalar product.
    pub fn dot(self, other: Way) -> f64 {
        self.x * other.x + self.y * other.y + self.z * other.z
    }

    /// Returns the sum.
    pub fn plus(self, other: Way) -> Way {
        Way {
            x: self.x + other.x,
            y: self.y + other.y,
            z: self.z + other.z,
        }
    }

    /// Returns the product with a number.
    pub fn times(self, factor: f64) -> Way {
        Way {
            x: self.x * factor,
            y: self.y * factor,
            z: self.z * factor,
        }
    }

    /// Returns the length.
    pub fn length(self) -> f64 {
        self.dot(self).sqrt()
    }

    /// Returns the vector scaled to length 1; the zero vector stays.
    pub fn unit(self) -> Way {
        let long = self.length();
        if long > 0.0 {
            Way {
                x: self.x / long,
                y: self.y / long,
                z: self.z / long,
            }
        } else {
            Way::NONE
        }
    }

    /// Returns the angle between two vectors of length 1, in radians.
    pub(crate) fn angle(self, other: Way) -> f64 {
        let cosine = self.dot(other);
        let near = cosine.abs().min(1.0);
        let acute = (1.0 - near).sqrt() * arc_part(near);
        if cosine < 0.0 {
            HALF_TURN - acute
        } else {
            acute
        }
    }
}
