//! Whether all of a part is near faces, by smaller and smaller parts.

ghost use Rattle.std.specs.Prelude.{◌≤◌, IfOk, All, length};
ghost use Rattle.std.specs.Bool.{OnTrue};
ghost use Rattle.mesh.specs.Meshes.{IsFace};
ghost use Rattle.mesh_cover.specs.Covers.{IsTriangleCovered};

use crate::NoMemory;
use crate::near::{corners_of, is_part_near};
use crate::part::Part;
use face_near::Corners;
use mesh::Mesh;
use mesh_flips::Way;

/// A box in floating point.
#[derive(Clone, Copy)]
struct Extent {
    low: Way,
    high: Way,
}

impl Extent {
    /// Returns the box of a triangle.
    fn of(t: &Corners) -> Extent {
        Extent {
            low: Way {
                x: t.a.x.min(t.b.x).min(t.c.x),
                y: t.a.y.min(t.b.y).min(t.c.y),
                z: t.a.z.min(t.b.z).min(t.c.z),
            },
            high: Way {
                x: t.a.x.max(t.b.x).max(t.c.x),
                y: t.a.y.max(t.b.y).max(t.c.y),
                z: t.a.z.max(t.b.z).max(t.c.z),
            },
        }
    }

    /// Returns whether some of another box is within reach.
    fn meets(&self, other: &Extent, reach: f64) -> bool {
        self.low.x - reach <= other.high.x
            && other.low.x <= self.high.x + reach
            && self.low.y - reach <= other.high.y
            && other.low.y <= self.high.y + reach
            && self.low.z - reach <= other.high.z
            && other.low.z <= self.high.z + reach
    }

    /// Returns whether all of another box is within reach.
    fn holds(&self, other: &Extent, reach: f64) -> bool {
        self.low.x - reach <= other.low.x
            && other.high.x <= self.high.x + reach
            && self.low.y - reach <= other.low.y
            && other.high.y <= self.high.y + reach
            && self.low.z - reach <= other.low.z
            && other.high.z <= self.high.z + reach
    }
}

/// A face that may be near a part, with its box, so that most faces are left out without a look at their corners.
#[derive(Clone, Copy)]
pub(crate) struct Nearby {
    face: usize,
    extent: Extent,
}

impl Nearby {
    /// Returns a face by its number, if there is one.
    pub(crate) fn of(onto: &Mesh, face: usize) -> Option<Nearby> {
        let corners = onto.faces.get(face)?;
        Some(Nearby {
            face,
            extent: Extent::of(&corners_of(&onto.points, *corners)),
        })
    }
}

/// Exchanges two faces of a list.
fn exchange(list: &mut [Nearby], i: usize, j: usize) {
    if i < list.len() && j < list.len() {
        list.swap(i, j);
    }
}

/// Moves those of the first faces of a list that may be within reach of some of a part to its front, and returns how many they are.
fn bring_near(part: &Part, within: u32, list: &mut [Nearby], count: usize) -> usize {
    let extent = Extent::of(&part.spots);
    let reach = f64::from(within);
    let mut near = 0usize;
    for at in 0..count.min(list.len()) {
        if list[at].extent.meets(&extent, reach) {
            exchange(list, near, at);
            near = near.saturating_add(1);
        }
    }
    near
}

/// Returns whether all of a part is shown to be within reach of one of the first faces of a list.
fn is_near_one(onto: &Mesh, part: &Part, within: u32, list: &[Nearby], count: usize) -> bool
    requires { All (IsFace (length onto.now.points.items)) onto.now.faces.items }
    ensures { OnTrue result (IsTriangleCovered within onto.now.points.items onto.now.faces.items part.now.scale part.now.a part.now.b part.now.c) }
{
    let extent = Extent::of(&part.spots);
    let reach = f64::from(within);
    for near in list.iter().take(count) {
        if near.extent.holds(&extent, reach) && is_part_near(onto, near.face, part, within) {
            return true;
        }
    }
    false
}

/// Returns whether each point of a part is shown to be within reach of a face, by parts of parts down to a depth.
///
/// The faces that are tried are the first `count` of `list`. Their order changes.
pub(crate) fn is_covered(
    onto: &Mesh,
    part: &Part,
    within: u32,
    list: &mut [Nearby],
    count: usize,
    depth: u32,
) -> Result<bool, NoMemory>
    requires { All (IsFace (length onto.now.points.items)) onto.now.faces.items }
    ensures { IfOk result (λ yes. OnTrue yes (IsTriangleCovered within onto.now.points.items onto.now.faces.items part.now.scale part.now.a part.now.b part.now.c)) }
{
    let near = bring_near(part, within, list, count);
    if is_near_one(onto, part, within, list, near) {
        return Ok(true);
    }
    if depth == 0 || near == 0 {
        return Ok(false);
    }
    if !part.is_small() {
        return Ok(false);
    }
    let corner = part.corner();
    if !is_covered(onto, &corner, within, list, near, depth - 1)? {
        return Ok(false);
    }
    let turned = part.turned();
    let corner = turned.corner();
    if !is_covered(onto, &corner, within, list, near, depth - 1)? {
        return Ok(false);
    }
    let turned = turned.turned();
    let corner = turned.corner();
    if !is_covered(onto, &corner, within, list, near, depth - 1)? {
        return Ok(false);
    }
    let middle = part.middle();
    if !is_covered(onto, &middle, within, list, near, depth - 1)? {
        return Ok(false);
    }
    Ok(true)
}
