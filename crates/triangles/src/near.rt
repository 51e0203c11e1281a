//! Inserts boxes into a tree and finds those near a box.

ghost use Rattle.std.specs.Prelude.{◌≡◌, ◌≤◌, ◌<◌, ◌+◌, ◌*◌, ◌/◌, ◌^◌, ◌⊎◌, ℕ, vec_len, length, OnOk, Contains};
ghost use Rattle.triangles.specs.Hulls.{HoldsHull, AreOff};
ghost use Rattle.triangles.specs.Trees.{IsInserted, IsInsertedAt, HasGrown, KeepsAll, IsNodeAbove, hull_in, leaf_of};
ghost use Rattle.triangles.specs.declared.hull.Hull.{Hull};

use crate::NoMemory;
use crate::hull::Hull;
use crate::tree::{HullTree, LEAF};

/// Grows one box until it contains another.
fn widen(hulls: &mut [Hull], node: usize, hull: Hull)
    requires { node < length hulls.old }
    ensures insert { HoldsHull (hull_in hulls.new node) hull }
    ensures kept { HasGrown hulls.old hulls.new }
{
    let had = hulls[node];
    hulls[node] = had.joined(hull);
}

/// Grows each box above a node of the lowest level until it contains this one.
fn grow(hulls: &mut [Hull], height: usize, place: usize, hull: Hull)
    requires within { place < length hulls.old }
    requires low { height < 64 }
    ensures insert { IsInsertedAt hulls.new height place hull }
    ensures kept { HasGrown hulls.old hulls.new }
{
    let mut node = place;
    for _ in 0..height + 1 {
        widen(hulls, node, hull);
        node /= 2;
    }
}

/// Appends a number.
fn push_number(found: &mut Vec<usize>, number: usize) -> Result<(), NoMemory>
    ensures has { OnOk result (Contains found.new.items number) }
    ensures kept { OnOk result (KeepsAll found.old.items found.new.items) }
{
    found.push(number)?;
    Ok(())
}

/// Appends the four numbers of a leaf.
fn push_leaf(leaf: usize, found: &mut Vec<usize>) -> Result<(), NoMemory>
    requires { leaf < 2 ^ 61 }
    ensures all { OnOk result ((i : ℕ) → i / 4 ≡ leaf → Contains found.new.items i) }
    ensures kept { OnOk result (KeepsAll found.old.items found.new.items) }
{
    let first = LEAF * leaf;
    push_number(found, first)?;
    push_number(found, first + 1)?;
    push_number(found, first + 2)?;
    push_number(found, first + 3)?;
    Ok(())
}

impl HullTree {
    /// Inserts a box at a number. All boxes inserted before, at this number too, stay.
    pub fn insert(&mut self, number: usize, hull: Hull)
        requires { number < 4 * self.old.leaves }
        ensures insert { IsInserted self.new number hull }
        ensures kept { (i : ℕ) (h : Hull) → IsInserted self.old i h → IsInserted self.new i h }
        ensures same { self.new.leaves ≡ self.old.leaves }
    {
        let place = self.leaves + number / LEAF;
        grow(&mut self.hulls, self.height, place, hull);
    }

    /// Appends the numbers below a node whose boxes may overlap a box.
    fn gather(
        &self,
        hull: Hull,
        node: usize,
        height: usize,
        found: &mut Vec<usize>,
    ) -> Result<(), NoMemory>
        requires low { height ≤ self.now.height }
        requires from { self.now.leaves ≤ node * 2 ^ height }
        requires to { (node + 1) * 2 ^ height ≤ 2 * self.now.leaves }
        ensures found { OnOk result ((i : ℕ) (h : Hull) → IsInserted self.now i h → IsNodeAbove node height (leaf_of self.now i) → Contains found.new.items i ⊎ AreOff h hull) }
        ensures kept { OnOk result (KeepsAll found.old.items found.new.items) }
    {
        if !self.hulls[node].meets(hull) {
            return Ok(());
        }
        if height == 0 {
            push_leaf(node - self.leaves, found)?;
            return Ok(());
        }
        self.gather(hull, 2 * node, height - 1, found)?;
        self.gather(hull, 2 * node + 1, height - 1, found)?;
        Ok(())
    }

    /// Appends to `found` each number below the tree's count if one of its inserted boxes overlaps `hull`. Others may be
    /// appended too, and those in `found` stay.
    pub fn near(&self, hull: Hull, found: &mut Vec<usize>) -> Result<(), NoMemory>
        ensures found { OnOk result ((i : ℕ) (h : Hull) → i < 4 * self.now.leaves → IsInserted self.now i h → Contains found.new.items i ⊎ AreOff h hull) }
        ensures kept { OnOk result (KeepsAll found.old.items found.new.items) }
    {
        self.gather(hull, 1, self.height, found)?;
        Ok(())
    }
}
