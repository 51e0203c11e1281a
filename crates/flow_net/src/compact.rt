//! The list of a network's arcs. It depends on `Arc`.
//!
//! The network of a million points has 24 million arcs, so each is kept in 16 bytes as long as its numbers fit in 32 bits.

ghost use Rattle.std.specs.Prelude.{◌≡◌, ◌<◌, ◌++◌, ◌∷◌, [], length, IfOk, OnOk, OnErr, IfSome};
ghost use Rattle.flow_net.specs.Nets.{arc_at};

use crate::Arc;
use std::alloc::{AllocError, Global};
use std::marker::Model;

/// What stands for the reverse of an arc that has none.
const NO_PAIR: u32 = u32::MAX;

/// An arc whose numbers fit in 32 bits each.
#[derive(Clone, Copy, Debug, PartialEq, Eq)]
struct NarrowArc {
    from: u32,
    to: u32,
    cap: u32,
    /// The number of the reverse arc, or [`NO_PAIR`].
    pair: u32,
}

/// A list of arcs. Contracts see the arcs and nothing of how many bits they take.
///
/// From the first arc on that does not fit in 16 bytes they take more.
#[derive(Debug, Drop)]
pub struct Arcs {
    narrow: Vec<NarrowArc>,
    wide: Vec<Arc>,
}

impl Model for Arcs {
    ghost use Rattle.std.specs.Prelude.{List};
    ghost use Rattle.flow_net.specs.declared.Arc.{Arc};
    ghost use Rattle.flow_net.specs.Compact.{all_arcs};

    ghost Value = { List Arc };

    ghost view = { λ arcs. all_arcs arcs.narrow.items arcs.wide.items };
}

/// A number in 32 bits, or None where it does not fit, or is the one that stands for no reverse.
fn in_few_bits(number: usize) -> Option<u32>
    ensures { IfSome result (λ few. (few ≡ number) × (few < 4294967295)) }
{
    if number < NO_PAIR as usize {
        Some(number as u32)
    } else {
        None
    }
}

impl NarrowArc {
    ghost use Rattle.flow_net.specs.Compact.{widened, pair_from};

    /// The reverse of an arc in few bits, or None where it does not fit.
    fn pair_of(pair: Option<usize>) -> Option<u32>
        ensures { IfSome result (λ few. pair_from few ≡ pair) }
    {
        match pair {
            None => Some(NO_PAIR),
            Some(reverse) => in_few_bits(reverse),
        }
    }

    /// An arc in few bits, or None where a number does not fit.
    fn of(arc: Arc) -> Option<NarrowArc>
        ensures { IfSome result (λ narrow. widened narrow ≡ arc) }
    {
        if arc.cap > u64::from(u32::MAX) {
            return None;
        }
        Some(NarrowArc {
            from: in_few_bits(arc.from)?,
            to: in_few_bits(arc.to)?,
            cap: arc.cap as u32,
            pair: NarrowArc::pair_of(arc.pair)?,
        })
    }

    /// The arc.
    #[inline]
    fn arc(self) -> Arc
        ensures { result ≡ widened self }
    {
        Arc {
            from: self.from as usize,
            to: self.to as usize,
            cap: u64::from(self.cap),
            pair: if self.pair == NO_PAIR {
                None
            } else {
                Some(self.pair as usize)
            },
        }
    }
}

impl From<Vec<Arc>> for Arcs {
    ghost from_gives = { λ items arcs. arcs ≡ items.items };

    /// The list of these arcs, as they are. It takes no memory.
    fn from(items: Vec<Arc>) -> Arcs {
        Arcs {
            narrow: Vec::new(*items.allocator()),
            wide: items,
        }
    }
}

impl Arcs {
    /// An empty list with capacity for this number of arcs of few bits.
    pub fn with_capacity(alloc: Global, count: usize) -> Result<Arcs, AllocError>
        ensures { IfOk result (λ arcs. arcs ≡ []) }
    {
        Ok(Arcs {
            narrow: Vec::with_capacity(alloc, count)?,
            wide: Vec::new(alloc),
        })
    }

    /// These arcs, in few bits as far as they fit.
    pub fn from_slice(alloc: Global, items: &[Arc]) -> Result<Arcs, AllocError>
        ensures { IfOk result (λ arcs. arcs ≡ items.now) }
    {
        let mut arcs = Arcs::with_capacity(alloc, items.len())?;
        for arc in items {
            arcs.push(*arc)?;
        }
        Ok(arcs)
    }

    /// The arcs in a `Vec`.
    pub fn to_vec(&self, alloc: Global) -> Result<Vec<Arc>, AllocError>
        ensures { IfOk result (λ items. items.items ≡ self.now) }
    {
        let mut items = Vec::with_capacity(alloc, self.len())?;
        for place in 0..self.len() {
            items.push(self.at(place))?;
        }
        Ok(items)
    }

    /// How many arcs there are.
    #[inline]
    pub fn len(&self) -> usize
        ensures { result ≡ length self.now }
    {
        self.narrow.len() + self.wide.len()
    }

    /// The arc at a place.
    #[inline]
    pub fn at(&self, place: usize) -> Arc
        requires { place < length self.now }
        ensures { result ≡ arc_at self.now place }
    {
        if place < self.narrow.len() {
            self.narrow[place].arc()
        } else {
            self.wide[place - self.narrow.len()]
        }
    }

    /// Adds an arc at the end.
    pub fn push(&mut self, arc: Arc) -> Result<(), AllocError>
        ensures added { OnOk result (self.new ≡ self.old ++ arc ∷ []) }
        ensures kept { OnErr result (self.new ≡ self.old) }
    {
        if self.wide.is_empty() {
            if let Some(narrow) = NarrowArc::of(arc) {
                self.narrow.push(narrow)?;
                return Ok(());
            }
        }
        self.wide.push(arc)?;
        Ok(())
    }
}
