//! Arrays of amounts that use 32 bits each if these are enough. Depends on nothing else.

use crate::NoMemory;
use std::alloc::Global;

/// The largest 32-bit number.
const MOST_OF_FEW: u64 = 4_294_967_295;

/// Amounts by index, all in 32 bits or all in 64.
///
/// An amount that is too large for its bits becomes the largest; the worst result is a wrong hint. Past the end there is
/// nothing.
#[derive(Debug, Drop)]
pub struct Amounts {
    narrow: Vec<u32>,
    wide: Vec<u64>,
}

impl Amounts {
    /// Returns zero amounts, of this number.
    pub fn new(alloc: Global, count: usize, is_narrow: bool) -> Result<Amounts, NoMemory> {
        let (narrow, wide) = if is_narrow { (count, 0) } else { (0, count) };
        Ok(Amounts {
            narrow: vec![in alloc; 0u32; narrow]?,
            wide: vec![in alloc; 0u64; wide]?,
        })
    }

    /// Returns a copy of the amounts.
    pub fn copied(&self, alloc: Global) -> Result<Amounts, NoMemory> {
        Ok(Amounts {
            narrow: Vec::from_slice(alloc, self.narrow.as_slice())?,
            wide: Vec::from_slice(alloc, self.wide.as_slice())?,
        })
    }

    /// Returns the same amounts, in 64 bits unless 32 are enough for their future values.
    pub fn widened(self, alloc: Global, is_narrow: bool) -> Result<Amounts, NoMemory> {
        if is_narrow || self.narrow.is_empty() {
            return Ok(self);
        }
        let mut amounts = Amounts::new(alloc, self.len(), false)?;
        for place in 0..self.len() {
            amounts.set(place, self.get(place));
        }
        Ok(amounts)
    }

    /// Returns the number of amounts.
    pub fn len(&self) -> usize {
        self.narrow.len().max(self.wide.len())
    }

    /// Returns the amount at an index.
    #[inline]
    pub fn get(&self, place: usize) -> u64 {
        if place < self.narrow.len() {
            u64::from(self.narrow[place])
        } else if place < self.wide.len() {
            self.wide[place]
        } else {
            0
        }
    }

    /// Writes the amount at an index.
    #[inline]
    pub fn set(&mut self, place: usize, amount: u64) {
        if place < self.narrow.len() {
            self.narrow[place] = amount.min(MOST_OF_FEW) as u32;
        } else if place < self.wide.len() {
            self.wide[place] = amount;
        }
    }
}
