//! A network made node by node and join by join, with its arcs valid at each step. It depends on the types at the head of
//! the crate.

ghost use Rattle.std.specs.Prelude.{◌≡◌, ◌<◌, ◌≤◌, length, true, false, IfOk, IfErr, OnOk, OnErr};
ghost use Rattle.flow_net.specs.declared.TheConstants.{AMOUNT_LIMIT};
ghost use Rattle.flow_net.specs.declared.builder.NetRefusal.TheVariants as refusals;
ghost use Rattle.flow_net.specs.Builders.{no_parts, with_node, with_feed, with_join, IsNode, RefusesSink, RefusesFeed, RefusesJoin};

use crate::{AMOUNT_LIMIT, Arc, Net};
use std::alloc::{AllocError, AllocFailed, Global};
use std::marker::Model;
use thiserror::Error;

/// Why a builder takes no node or no arc of these arguments.
#[derive(Clone, Copy, Debug, Drop, Error, PartialEq, Eq)]
pub enum NetRefusal {
    /// No node has this number.
    #[error("there is no node {0}")]
    NoNode(usize),
    /// Both ends of an arc are this node.
    #[error("an arc joins node {0} to itself")]
    SameNode(usize),
    /// An arc enters this node, which is fixed. Where two nodes are joined, an arc enters each of them.
    #[error("an arc enters the fixed node {0}")]
    EntersFixed(usize),
    /// An arc without a reverse leaves this node, which is free.
    #[error("an arc without a reverse leaves the free node {0}")]
    LeavesFree(usize),
    /// This capacity or sink is more than [`AMOUNT_LIMIT`].
    #[error("the amount {0} is more than 2^60")]
    OverLimit(u64),
    /// Memory ran out.
    #[error("no memory is left")]
    NoMemory,
}

impl From<AllocError> for NetRefusal {
    ghost from_gives = { λ _ refusal. refusal ≡ refusals.NoMemory };

    fn from(_error: AllocError) -> NetRefusal {
        NetRefusal::NoMemory
    }
}

impl<T: Drop> From<AllocFailed<T>> for NetRefusal {
    ghost from_gives = { λ _ refusal. refusal ≡ refusals.NoMemory };

    fn from(_error: AllocFailed<T>) -> NetRefusal {
        NetRefusal::NoMemory
    }
}

/// A network that is being made: contracts see its nodes, their sinks and its arcs, which make a valid one at each step.
///
/// Nodes have numbers from 0 in the order in which they are added, and so have arcs. After an error nothing has changed.
#[derive(Debug, Drop)]
pub struct NetBuilder {
    fixed: Vec<bool>,
    sink: Vec<u64>,
    arcs: Vec<Arc>,
}

impl Model for NetBuilder {
    ghost use Rattle.flow_net.specs.Builders.{Parts};
    ghost use Rattle.flow_net.specs.Nets.{IsValidNet};

    ghost Value = { Parts };

    ghost view = { λ b. record { fixed = b.fixed.items; sink = b.sink.items; arcs = b.arcs.items } };

    ghost invariant = { λ b. IsValidNet b.fixed.items b.sink.items b.arcs.items };
}

/// Refuses an amount over the limit.
fn expect_small(amount: u64) -> Result<(), NetRefusal>
    ensures small { OnOk result (amount ≤ AMOUNT_LIMIT) }
    ensures refused { IfErr result (λ why. (why ≡ refusals.OverLimit amount) × (AMOUNT_LIMIT < amount)) }
{
    if amount > AMOUNT_LIMIT {
        return Err(NetRefusal::OverLimit(amount));
    }
    Ok(())
}

impl NetBuilder {
    /// A network without nodes.
    pub fn new(alloc: Global) -> NetBuilder
        ensures { result ≡ no_parts }
    {
        NetBuilder {
            fixed: Vec::new(alloc),
            sink: Vec::new(alloc),
            arcs: Vec::new(alloc),
        }
    }

    /// Adds a node, and answers its number.
    fn add(&mut self, is_fixed: bool, sink: u64) -> Result<usize, AllocError>
        requires { sink ≤ AMOUNT_LIMIT }
        ensures number { IfOk result (λ node. node ≡ length self.old.fixed) }
        ensures added { OnOk result (self.new ≡ with_node self.old is_fixed sink) }
        ensures kept { OnErr result (self.new ≡ self.old) }
    {
        let node = self.fixed.len();
        self.fixed.push(is_fixed)?;
        if let Err(failed) = self.sink.push(sink) {
            self.fixed.pop();
            return Err(failed.into());
        }
        Ok(node)
    }

    /// Adds a fixed node, whose sink is 0, and answers its number.
    pub fn add_fixed(&mut self) -> Result<usize, AllocError>
        ensures number { IfOk result (λ node. node ≡ length self.old.fixed) }
        ensures added { OnOk result (self.new ≡ with_node self.old true 0) }
        ensures kept { OnErr result (self.new ≡ self.old) }
    {
        self.add(true, 0)
    }

    /// Adds a free node with this sink, which is at most [`AMOUNT_LIMIT`], and answers its number.
    pub fn add_free(&mut self, sink: u64) -> Result<usize, NetRefusal>
        ensures number { IfOk result (λ node. node ≡ length self.old.fixed) }
        ensures added { OnOk result (self.new ≡ with_node self.old false sink) }
        ensures refused { IfErr result (λ why. RefusesSink sink why) }
        ensures kept { OnErr result (self.new ≡ self.old) }
    {
        expect_small(sink)?;
        Ok(self.add(false, sink)?)
    }

    /// Whether a node is fixed.
    fn is_fixed(&self, node: usize) -> Result<bool, NetRefusal>
        ensures node { IfOk result (λ flag. IsNode self.now node flag) }
        ensures refused { IfErr result (λ why. (why ≡ refusals.NoNode node) × (length self.now.fixed ≤ node)) }
    {
        if node >= self.fixed.len() {
            return Err(NetRefusal::NoNode(node));
        }
        Ok(self.fixed[node])
    }

    /// Adds an arc from a fixed node to a free one, and answers its number. It has no reverse.
    ///
    /// If several arguments are wrong, the error is that of the first of them: `from`, `to`, `cap`.
    pub fn feed(&mut self, from: usize, to: usize, cap: u64) -> Result<usize, NetRefusal>
        ensures number { IfOk result (λ arc. arc ≡ length self.old.arcs) }
        ensures added { OnOk result (self.new ≡ with_feed self.old from to cap) }
        ensures refused { IfErr result (λ why. RefusesFeed self.old from to cap why) }
        ensures kept { OnErr result (self.new ≡ self.old) }
    {
        if !self.is_fixed(from)? {
            return Err(NetRefusal::LeavesFree(from));
        }
        if self.is_fixed(to)? {
            return Err(NetRefusal::EntersFixed(to));
        }
        expect_small(cap)?;
        let place = self.arcs.len();
        self.arcs.push(Arc {
            from,
            to,
            cap,
            pair: None,
        })?;
        Ok(place)
    }

    /// Joins two free nodes by an arc of capacity `cap` and its reverse of capacity `back_cap`, and answers the number of
    /// the arc. Its reverse has the next number.
    ///
    /// If several arguments are wrong, the error is that of the first of them: `from`, `to`, both as one node, `cap`, `back_cap`.
    pub fn join(
        &mut self,
        from: usize,
        to: usize,
        cap: u64,
        back_cap: u64,
    ) -> Result<usize, NetRefusal>
        ensures number { IfOk result (λ arc. arc ≡ length self.old.arcs) }
        ensures added { OnOk result (self.new ≡ with_join self.old from to cap back_cap) }
        ensures refused { IfErr result (λ why. RefusesJoin self.old from to cap back_cap why) }
        ensures kept { OnErr result (self.new ≡ self.old) }
    {
        if self.is_fixed(from)? {
            return Err(NetRefusal::EntersFixed(from));
        }
        if self.is_fixed(to)? {
            return Err(NetRefusal::EntersFixed(to));
        }
        if from == to {
            return Err(NetRefusal::SameNode(from));
        }
        expect_small(cap)?;
        expect_small(back_cap)?;
        let place = self.arcs.len();
        let there = Arc {
            from,
            to,
            cap,
            pair: Some(place + 1),
        };
        let back = Arc {
            from: to,
            to: from,
            cap: back_cap,
            pair: Some(place),
        };
        self.arcs.extend_from_slice(&[there, back])?;
        Ok(place)
    }

    /// The network.
    pub fn build(self) -> Net
        ensures fixed { result.fixed ≡ self.fixed }
        ensures sink { result.sink ≡ self.sink }
        ensures arcs { result.arcs ≡ self.arcs }
    {
        let NetBuilder { fixed, sink, arcs } = self;
        Net::new(fixed, sink, arcs)
    }
}
