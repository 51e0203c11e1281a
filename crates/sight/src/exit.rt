//! The side through which a line of sight leaves a cell.
//!
//! Let the line enter a cell through its facet a b c, let d be the fourth vertex, and look along the line from its point p. The
//! planes through p, d and each of a, b, c cut the region ahead into three parts, one before each other facet of the cell. So
//! the sides of two of the planes on which the scanner is leave one facet. In the cell at the vertex that facet is the one
//! opposite to the vertex.
//!
//! The walk keeps the facet a b c with the images of its vertices from cell to cell. It leaves through the facet opposite to
//! one of them; in the next cell that facet is a b c with d in place of that vertex. So a step reads one point and computes one
//! image.
//!
//! The functions of a step are inlined, so that its signs share one product and no point goes through memory between them.
//! Which two of the three planes decide depends on the first, and the signs are unpredictable: so all three are computed, and a
//! table of their signs gives the vertex that stays behind.

ghost use Rattle.std.specs.Prelude.{◌≡◌, ◌<◌, ◌<ℤ◌, ◌↔◌, ℕ, pos, IsTrue, IfSome, IfNone, length, slice_index, slice_index_or, if◌then◌else◌};
ghost use Rattle.geo_sign.specs.Rational.{side, displaced};
ghost use Rattle.geo_sign.specs.Sights.{side_of};
ghost use Rattle.geo_sign.specs.Tetrahedron.{facet_at, facet_of, IsTurned};
ghost use Rattle.geo_sign.specs.Writings.{IsVertexOf};
ghost use Rattle.tetra_store.specs.Links.{tetrahedron_from};
ghost use Rattle.tetra_store.specs.Store.{vertices_of};
ghost use Rattle.std.specs.Option.{ForSome};
ghost use Rattle.sight.specs.Exits.{left_behind, left_among};
ghost use Rattle.sight.specs.Fronts.{IsVertexImage, AreSeen, KeepsFront, IsNextFront, GoesOut, HasArrived, IsWayOut};
ghost use Rattle.sight.specs.Images.{no_image, IsLookedAlong};
ghost use Rattle.sight.specs.Walks.{IsWalking, IsEndCell};

use crate::image::{Image, Ray, determinant, seen_at};
use geo_sign::{Point, Sign, side_of_scanner};
use tetra_store::{CellId, Tetra};
use tetra_walk::{NO_SIDE, facet};

/// The vertex that stays behind if a sight leaves the cell at its vertex: none of a facet.
const NO_VERTEX: usize = 3;

/// The facet through which a sight entered a cell: its vertices in that cell's orientation, from any of them on, and their
/// images.
#[derive(Clone, Copy)]
pub(crate) struct Front {
    pub(crate) vertices: [u32; 3],
    pub(crate) images: [Image; 3],
}

/// A cell that a walk has reached: its vertices, its entry side (0 to 3, or 4 if it has none), and the facet of that side.
#[derive(Clone, Copy)]
pub(crate) struct Reached {
    pub(crate) at: CellId,
    pub(crate) vertices: [u32; 4],
    pub(crate) entered: usize,
    pub(crate) front: Front,
}

/// How a sight leaves a cell: through which side, and which vertex of the entry facet stays behind, 0 to 2, or 3 if there is no
/// entry facet. That vertex is opposite to the side. The image is that of the vertex which the facet does not have.
#[derive(Clone, Copy)]
pub(crate) struct WayOut {
    pub(crate) side: usize,
    pub(crate) behind: usize,
    pub(crate) image: Image,
}

/// Returns the image of a vertex of a front.
fn image_of(front: &Front, index: usize) -> Image
    requires { index < 3 }
    ensures { result ≡ slice_index_or front.now.images index no_image }
{
    front.images[index]
}

/// Returns the side of a cell that is opposite to a vertex of it, without a branch.
fn side_opposite(v: [u32; 4], vertex: u32) -> usize
    requires { IsVertexOf (tetrahedron_from v) vertex }
    ensures side { result < 4 }
    ensures opposite { slice_index v result ≡ vertex }
{
    let after_second = if v[2] == vertex { 2 } else { 3 };
    let after_first = if v[1] == vertex { 1 } else { after_second };
    if v[0] == vertex { 0 } else { after_first }
}

/// The vertex that stays behind, by three tests, of the planes through the first, the second and the third vertex of the entry
/// facet: indexed by the bits of the tests, the first test in the lowest bit.
const BEHIND: [usize; 8] = [0, 1, 2, 1, 0, 0, 2, 0];

/// Returns 1 if it holds, else 0.
fn bit(holds: bool) -> usize
    ensures { result ≡ if holds then 1 else 0 }
{
    if holds { 1 } else { 0 }
}

/// Returns the vertex that stays behind, given the tests of the three planes: the first and the third or the second determine
/// it. The tests are unpredictable, so there is no branch.
fn left(first: bool, second: bool, third: bool) -> usize
    ensures side { result < 3 }
    ensures left { result ≡ left_behind first second third }
{
    BEHIND[bit(first) + 2 * bit(second) + 4 * bit(third)]
}

/// Returns whether a number is zero.
fn is_zero(number: i128) -> bool
    ensures { IsTrue result ↔ (number ≡ pos 0) }
{
    number == 0
}

/// Returns whether a number is above zero.
fn is_positive(number: i128) -> bool
    ensures { IsTrue result ↔ (pos 0 <ℤ number) }
{
    number > 0
}

/// Returns whether the scanner is on the inner side of the facet p a b, by the sign of its perturbed position. Called only if
/// the scanner's point is in the facet's plane, which is rare.
#[inline(never)]
fn is_before_displaced(p: Point, a: Point, b: Point, s: Point) -> bool
    ensures { IsTrue result ↔ (pos 0 <ℤ side p a b (displaced s)) }
{
    match side_of_scanner(p, a, b, s) {
        Sign::Neg => false,
        Sign::Zero => false,
        Sign::Pos => true,
    }
}

/// Returns which vertex of a front stays behind, by the signs of the scanner's perturbed position. Called only if the scanner's
/// point is in one of the three planes, which is rare. So it takes vertex numbers and reads the points itself.
#[inline(never)]
fn behind_by_displacement(
    t: &Tetra,
    vertices: [u32; 3],
    vertex: u32,
    fourth: u32,
    s: Point,
) -> usize
    requires known { (j : ℕ) → j < 3 → slice_index vertices j < length t.now.points }
    requires vertex { vertex < length t.now.points }
    requires fourth { fourth < length t.now.points }
    ensures side { result < 3 }
    ensures left { result ≡ left_among (vertices_of t.now) vertex (displaced s) fourth vertices }
{
    let p = t.point(vertex);
    let d = t.point(fourth);
    left(
        is_before_displaced(p, t.point(vertices[0]), d, s),
        is_before_displaced(p, t.point(vertices[1]), d, s),
        is_before_displaced(p, t.point(vertices[2]), d, s),
    )
}

/// Returns which vertex of a front stays behind. The scanner is on the inner side of the facet of the sight's vertex, the
/// cell's fourth one and one of the front if the latter is before the plane of the two others and the scanner's point; the sign
/// of the determinant of its image and the fourth vertex's shows this. The perturbation decides only if one of these is zero:
/// no other branch depends on a sign.
#[inline(always)]
fn behind_by_images(t: &Tetra, ray: &Ray, front: &Front, fourth: u32, image: Image) -> usize
    requires looked { IsLookedAlong t.now ray.now }
    requires seen { AreSeen t.now ray.now front.now }
    requires image { IsVertexImage t.now ray.now fourth image }
    ensures side { result < 3 }
    ensures left { result ≡ left_among (vertices_of t.now) ray.now.vertex (displaced ray.now.scanner) fourth front.now.vertices }
{
    let first = determinant(image, image_of(front, 0));
    let second = determinant(image, image_of(front, 1));
    let third = determinant(image, image_of(front, 2));
    if is_zero(first) {
        return behind_by_displacement(t, front.vertices, ray.vertex, fourth, ray.scanner);
    }
    if is_zero(second) {
        return behind_by_displacement(t, front.vertices, ray.vertex, fourth, ray.scanner);
    }
    if is_zero(third) {
        return behind_by_displacement(t, front.vertices, ray.vertex, fourth, ray.scanner);
    }
    left(is_positive(first), is_positive(second), is_positive(third))
}

/// Returns whether the scanner is behind the facet a b c.
fn is_behind(a: Point, b: Point, c: Point, s: Point) -> bool
    ensures { IsTrue result ↔ (side a b c (displaced s) <ℤ pos 0) }
{
    match side_of_scanner(a, b, c, s) {
        Sign::Neg => true,
        Sign::Zero => false,
        Sign::Pos => false,
    }
}

/// Returns whether the scanner is beyond a side of a cell.
fn is_beyond(t: &Tetra, v: [u32; 4], s: Point, side: usize) -> bool
    requires known { (k : ℕ) → k < 4 → slice_index v k < length t.now.points }
    requires side { side < 4 }
    ensures { IsTrue result ↔ (side_of (vertices_of t.now) (facet_of (tetrahedron_from v) side) (displaced s) <ℤ pos 0) }
{
    let [a, b, c] = facet(v, side);
    is_behind(t.point(a), t.point(b), t.point(c), s)
}

/// Returns how a sight can leave a cell: by three signs (two of them decide), or by none in the cell at its vertex.
#[inline(always)]
fn ahead(t: &Tetra, ray: &Ray, reached: &Reached) -> WayOut
    requires walking { IsWalking t.now ray.now reached.now }
    requires looked { IsLookedAlong t.now ray.now }
    requires front { KeepsFront t.now ray.now reached.now }
    ensures side { result.side < 4 }
    ensures image { result.behind < 3 → IsVertexImage t.now ray.now (slice_index reached.now.vertices reached.now.entered) result.image }
    ensures only { (k : ℕ) → GoesOut t.now ray.now reached.now k → (k ≡ result.side) × IsNextFront reached.now k result.behind }
{
    t.facts();
    if reached.entered == NO_SIDE {
        return WayOut {
            side: side_opposite(reached.vertices, ray.vertex),
            behind: NO_VERTEX,
            image: Image { right: 0, up: 0 },
        };
    }
    let fourth = reached.vertices[reached.entered];
    let image = vertex_seen(t, ray, fourth);
    let behind = behind_by_images(t, ray, &reached.front, fourth, image);
    WayOut {
        side: side_opposite(reached.vertices, reached.front.vertices[behind]),
        behind,
        image,
    }
}

/// Returns how a sight leaves a cell. Returns `None` exactly if the scanner is in the cell.
#[tactic(auto, using(crate::proofs::Steps::known_at))]
fn exit_side(t: &Tetra, ray: &Ray, reached: &Reached) -> Option<WayOut>
    requires walking { IsWalking t.now ray.now reached.now }
    requires looked { IsLookedAlong t.now ray.now }
    requires front { KeepsFront t.now ray.now reached.now }
    ensures some { IfSome result (IsWayOut t.now ray.now reached.now) }
    ensures none { IfNone result (HasArrived t.now ray.now reached.now) }
{
    t.facts();
    let exit = ahead(t, ray, reached);
    if is_beyond(t, reached.vertices, ray.scanner, exit.side) {
        Some(exit)
    } else {
        None
    }
}

/// Returns how a walk leaves the cell that it has reached. Returns `None` exactly if that is the scanner's. If the scanner's
/// cell is known, this takes one sign less.
#[inline(always)]
pub(crate) fn exit(t: &Tetra, ray: &Ray, reached: &Reached, end: Option<CellId>) -> Option<WayOut>
    requires walking { IsWalking t.now ray.now reached.now }
    requires looked { IsLookedAlong t.now ray.now }
    requires front { KeepsFront t.now ray.now reached.now }
    requires end { ForSome end (λ e. IsEndCell t.now ray.now.scanner e) }
    ensures some { IfSome result (IsWayOut t.now ray.now reached.now) }
    ensures none { IfNone result (HasArrived t.now ray.now reached.now) }
{
    t.facts();
    match end {
        None => exit_side(t, ray, reached),
        Some(end) => {
            if reached.at == end {
                return None;
            }
            Some(ahead(t, ray, reached))
        }
    }
}

/// Returns the image of a vertex.
#[inline(always)]
fn vertex_seen(t: &Tetra, ray: &Ray, vertex: u32) -> Image
    requires known { vertex < length t.now.points }
    requires looked { IsLookedAlong t.now ray.now }
    ensures { IsVertexImage t.now ray.now vertex result }
{
    seen_at(&ray.screen, ray.point, t.point(vertex))
}

/// Returns the front of three vertices.
pub(crate) fn front_of(t: &Tetra, ray: &Ray, vertices: [u32; 3]) -> Front
    requires known { (j : ℕ) → j < 3 → slice_index vertices j < length t.now.points }
    requires looked { IsLookedAlong t.now ray.now }
    ensures vertices { result.vertices ≡ vertices }
    ensures images { length result.images ≡ 3 }
    ensures seen { AreSeen t.now ray.now result }
{
    Front {
        vertices,
        images: [
            vertex_seen(t, ray, vertices[0]),
            vertex_seen(t, ray, vertices[1]),
            vertex_seen(t, ray, vertices[2]),
        ],
    }
}

/// Returns the facet of a side of a cell in the opposite direction, as the adjacent cell has it.
fn turned_facet(v: [u32; 4], side: usize) -> [u32; 3]
    requires { side < 4 }
    ensures three { length result ≡ 3 }
    ensures turned { IsTurned (facet_of (tetrahedron_from v) side) (facet_at result) }
    ensures own { (j : ℕ) → j < 3 → IsVertexOf (tetrahedron_from v) (slice_index result j) }
{
    let [a, b, c] = facet(v, side);
    [a, c, b]
}

/// Moves a front to the facet through which a sight leaves, as the adjacent cell has it: the vertex that the previous facet did
/// not have replaces the one that stays behind.
#[inline(always)]
pub(crate) fn go_through(t: &Tetra, ray: &Ray, reached: &mut Reached, exit: WayOut)
    requires walking { IsWalking t.now ray.now reached.old }
    requires looked { IsLookedAlong t.now ray.now }
    requires front { KeepsFront t.now ray.now reached.old }
    requires exit { IsWayOut t.now ray.now reached.old exit }
    ensures same { (reached.new.at ≡ reached.old.at) × (reached.new.vertices ≡ reached.old.vertices) × (reached.new.entered ≡ reached.old.entered) }
    ensures three { length reached.new.front.vertices ≡ 3 }
    ensures images { length reached.new.front.images ≡ 3 }
    ensures turned { IsTurned (facet_of (tetrahedron_from reached.old.vertices) exit.side) (facet_at reached.new.front.vertices) }
    ensures seen { AreSeen t.now ray.now reached.new.front }
{
    t.facts();
    if exit.behind == NO_VERTEX {
        reached.front = front_of(t, ray, turned_facet(reached.vertices, exit.side));
        return;
    }
    reached.front.vertices[exit.behind] = reached.vertices[reached.entered];
    reached.front.images[exit.behind] = exit.image;
}
