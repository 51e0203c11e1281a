//! Whether two faces cross. No clause depends on it.

use geo_sign::{Point, Sign, orient};

/// A face, and the places of its vertices.
#[derive(Clone, Copy)]
pub(crate) struct Corners {
    pub(crate) face: [u32; 3],
    p: Point,
    q: Point,
    r: Point,
}

/// Returns a face with the places of its vertices.
pub(crate) fn corners_of(places: &[Point], face: [u32; 3]) -> Option<Corners> {
    let [a, b, c] = face;
    let p = *places.get(a as usize)?;
    let q = *places.get(b as usize)?;
    let r = *places.get(c as usize)?;
    Some(Corners { face, p, q, r })
}

fn has(face: [u32; 3], vertex: u32) -> bool {
    let [a, b, c] = face;
    a == vertex || b == vertex || c == vertex
}

fn count_shared(f: [u32; 3], g: [u32; 3]) -> u32 {
    let [a, b, c] = f;
    u32::from(has(g, a))
        .saturating_add(u32::from(has(g, b)))
        .saturating_add(u32::from(has(g, c)))
}

/// Returns whether no two of three signs are opposite.
fn agree(a: Sign, b: Sign, c: Sign) -> bool {
    let is_pos = a.is_pos() || b.is_pos() || c.is_pos();
    let is_neg = a.is_neg() || b.is_neg() || c.is_neg();
    !(is_pos && is_neg)
}

/// Returns whether the segment between two points meets a face, unless all are in one plane.
fn meets(p: Point, q: Point, face: &Corners) -> bool {
    let (a, b, c) = (face.p, face.q, face.r);
    orient(a, b, c, p) != orient(a, b, c, q)
        && agree(orient(p, q, a, b), orient(p, q, b, c), orient(p, q, c, a))
}

/// Returns whether an edge without a vertex of a face meets it.
fn pierces(u: u32, v: u32, p: Point, q: Point, other: &Corners) -> bool {
    !has(other.face, u) && !has(other.face, v) && meets(p, q, other)
}

fn has_piercing_edge(f: &Corners, g: &Corners) -> bool {
    let [a, b, c] = f.face;
    let (p, q, r) = (f.p, f.q, f.r);
    pierces(a, b, p, q, g) || pierces(b, c, q, r, g) || pierces(c, a, r, p, g)
}

fn span(a: i32, b: i32, c: i32) -> (i32, i32) {
    (a.min(b).min(c), a.max(b).max(c))
}

fn overlap(one: (i32, i32), other: (i32, i32)) -> bool {
    one.0 <= other.1 && other.0 <= one.1
}

impl Corners {
    /// Returns the least and the greatest coordinate of each axis.
    pub(crate) fn spans(&self) -> [(i32, i32); 3] {
        let (p, q, r) = (self.p, self.q, self.r);
        [
            span(p.x(), q.x(), r.x()),
            span(p.y(), q.y(), r.y()),
            span(p.z(), q.z(), r.z()),
        ]
    }

    /// Returns the place of the first vertex.
    pub(crate) fn first(&self) -> Point {
        self.p
    }

    fn is_near(&self, other: &Corners) -> bool {
        let ([a, b, c], [d, e, f]) = (self.spans(), other.spans());
        overlap(a, d) && overlap(b, e) && overlap(c, f)
    }

    /// Returns whether an edge of one face meets the other face, but for edges with a common vertex. Faces in one plane do not cross.
    pub(crate) fn crosses(&self, other: &Corners) -> bool {
        self.is_near(other)
            && count_shared(self.face, other.face) < 2
            && (has_piercing_edge(self, other) || has_piercing_edge(other, self))
    }
}
