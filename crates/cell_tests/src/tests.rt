//! Cells and networks compared with brute-force oracles, hints and maximum flows, and examples; `points` and `flow_networks`
//! have the fixtures.

mod flow_networks;
mod hints;
mod insertions;
mod largest_flows;
mod networks;
mod plain_networks;
mod points;
mod signs;
