//! The answers of a check of labels and a flow. It depends on nothing else.

/// What a check of labels and a flow finds: the first fault in the order of the variants, at its smallest node or arc.
#[derive(Clone, Copy, Debug, PartialEq, Eq)]
pub enum Verdict {
    /// The flow is valid, its value is the cost of the labels, and these are the minimum cut with the smallest inside.
    Yes,
    /// A fixed node is inside.
    FixedInside {
        /// The node.
        node: usize,
    },
    /// More flows on an arc than its capacity.
    OverCapacity {
        /// The arc.
        arc: usize,
        /// The amount on it.
        flow: u64,
        /// Its capacity.
        cap: u64,
    },
    /// More leaves at a node's sink than may.
    OverSink {
        /// The node.
        node: usize,
        /// The amount at its sink.
        flow: u64,
        /// The most that may leave there: its sink, or 0 where the node is fixed.
        cap: u64,
    },
    /// What enters a free node is not what leaves it.
    Unbalanced {
        /// The node.
        node: usize,
        /// What enters it over arcs.
        amount_in: u128,
        /// What leaves it over arcs and at its sink.
        amount_out: u128,
    },
    /// The value of the flow is not the cost of the labels.
    NotEqual {
        /// The value.
        value: u128,
        /// The cost.
        cost: u128,
    },
    /// The labels cost least, but a node that they have inside is outside by the minimum cut with the smallest inside.
    NotLeast {
        /// The node.
        node: usize,
    },
}
