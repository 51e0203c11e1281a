//! Proposes weights of corners that may show that two faces cross. No clause depends on it, since weights are verified.
//!
//! Where two triangles cross, an edge of one meets the other triangle, or both are in one plane: then a corner of one is in the other, or
//! two edges meet. The weights are volumes and areas of the parts, so they are exact.

use crate::witness::{Corners, Weights};
use geo_sign::{Point, orient_value};

/// Weights of both triangles.
#[derive(Clone, Copy)]
pub(crate) struct Proposal {
    pub(crate) one: Weights,
    pub(crate) other: Weights,
}

/// How many proposals there are for a pair of triangles.
pub(crate) const PROPOSALS: u32 = 51;

fn corner(t: &Corners, k: u32) -> Point {
    match k % 3 {
        0 => t.a,
        1 => t.b,
        _ => t.c,
    }
}

/// Returns weights of corner `k` and of the next one.
fn two_weights(k: u32, here: u128, next: u128) -> Weights {
    match k % 3 {
        0 => Weights {
            a: here,
            b: next,
            c: 0,
        },
        1 => Weights {
            a: 0,
            b: here,
            c: next,
        },
        _ => Weights {
            a: next,
            b: 0,
            c: here,
        },
    }
}

/// Returns the absolute values of three numbers, if no two have different signs.
fn weights_of(a: i128, b: i128, c: i128) -> Option<Weights> {
    let has_negative = a < 0 || b < 0 || c < 0;
    let has_positive = a > 0 || b > 0 || c > 0;
    if has_negative == has_positive {
        return None;
    }
    Some(Weights {
        a: a.unsigned_abs(),
        b: b.unsigned_abs(),
        c: c.unsigned_abs(),
    })
}

/// Returns weights of edge `k` of one triangle and of another where they meet.
fn edge_and_face(one: &Corners, k: u32, other: &Corners) -> Option<(Weights, Weights)> {
    let (p, q) = (corner(one, k), corner(one, k.saturating_add(1)));
    let below = orient_value(other.a, other.b, other.c, p);
    let above = orient_value(other.a, other.b, other.c, q);
    let face = weights_of(
        orient_value(p, q, other.b, other.c),
        orient_value(p, q, other.c, other.a),
        orient_value(p, q, other.a, other.b),
    )?;
    Some((
        two_weights(k, above.unsigned_abs(), below.unsigned_abs()),
        face,
    ))
}

/// Returns the coordinates of a point without that along an axis.
fn flat(p: Point, axis: u32) -> (i64, i64) {
    let (x, y, z) = (i64::from(p.x()), i64::from(p.y()), i64::from(p.z()));
    match axis % 3 {
        0 => (y, z),
        1 => (z, x),
        _ => (x, y),
    }
}

/// Returns twice the area of a triangle as seen along an axis.
fn area(axis: u32, a: Point, b: Point, c: Point) -> i128 {
    let ((ax, ay), (bx, by), (cx, cy)) = (flat(a, axis), flat(b, axis), flat(c, axis));
    let one = bx.wrapping_sub(ax).wrapping_mul(cy.wrapping_sub(ay));
    let other = by.wrapping_sub(ay).wrapping_mul(cx.wrapping_sub(ax));
    i128::from(one.wrapping_sub(other))
}

/// Returns weights of corner `k` of one triangle, and of another that contains it as seen along an axis.
fn corner_and_face(
    axis: u32,
    one: &Corners,
    k: u32,
    other: &Corners,
) -> Option<(Weights, Weights)> {
    let p = corner(one, k);
    let face = weights_of(
        area(axis, p, other.b, other.c),
        area(axis, other.a, p, other.c),
        area(axis, other.a, other.b, p),
    )?;
    let sum = face.a.wrapping_add(face.b).wrapping_add(face.c);
    Some((two_weights(k, sum, 0), face))
}

/// Returns weights of edge `i` of one triangle and edge `k` of another where they meet as seen along an axis.
fn two_edges(axis: u32, one: &Corners, i: u32, other: &Corners, k: u32) -> (Weights, Weights) {
    let (p, q) = (corner(one, i), corner(one, i.saturating_add(1)));
    let (a, b) = (corner(other, k), corner(other, k.saturating_add(1)));
    let first = two_weights(
        i,
        area(axis, a, b, q).unsigned_abs(),
        area(axis, a, b, p).unsigned_abs(),
    );
    let second = two_weights(
        k,
        area(axis, p, q, b).unsigned_abs(),
        area(axis, p, q, a).unsigned_abs(),
    );
    (first, second)
}

/// Returns the proposal of this number, if there is one.
pub(crate) fn proposed(one: &Corners, other: &Corners, number: u32) -> Option<Proposal> {
    let (k, axis) = (number % 3, number / 3 % 3);
    let (first, second) = if number < 3 {
        edge_and_face(one, k, other)?
    } else if number < 6 {
        let (second, first) = edge_and_face(other, k, one)?;
        (first, second)
    } else if number < 15 {
        corner_and_face(axis, one, k, other)?
    } else if number < 24 {
        let (second, first) = corner_and_face(axis, other, k, one)?;
        (first, second)
    } else {
        two_edges(axis, one, k, other, number / 9)
    };
    Some(Proposal {
        one: first,
        other: second,
    })
}
