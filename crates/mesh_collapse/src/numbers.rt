//! Reads and writes of lists of numbers, and the sides of faces. Half edge `3 f + k` is side `k` of face `f`.

/// No number.
pub(crate) const NONE: u32 = u32::MAX;

/// A face that is gone.
pub(crate) const GONE: [u32; 3] = [NONE, NONE, NONE];

/// Returns the number at an index, or `NONE` past the end.
pub(crate) fn number_at(list: &[u32], i: u32) -> u32 {
    match list.get(i as usize) {
        Some(number) => *number,
        None => NONE,
    }
}

/// Writes a number at an index, unless it is past the end.
pub(crate) fn put(list: &mut [u32], i: u32, number: u32) {
    if (i as usize) < list.len() {
        list[i as usize] = number;
    }
}

/// Returns the next half edge of the face.
pub(crate) fn after(h: u32) -> u32 {
    if h % 3 == 2 {
        h - 2
    } else {
        h.saturating_add(1)
    }
}

/// Returns the previous half edge of the face.
pub(crate) fn before(h: u32) -> u32 {
    if h % 3 == 0 {
        h.saturating_add(2)
    } else {
        h - 1
    }
}

/// Returns whether a face has a vertex.
pub(crate) fn has(face: [u32; 3], v: u32) -> bool {
    let [a, b, c] = face;
    a == v || b == v || c == v
}
