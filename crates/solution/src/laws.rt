//! Theorems over the definitions, as the contracts of calls that do nothing.

ghost use Rattle.solution.specs.Laws.{LeastCostLaw, SolutionLaw};

/// Two solutions of one scan at the same settings have the same mesh, and their certificates state the same counts, cost and
/// inside cells. The flows that they state may differ, and so may their fingerprints, which are not part of a solution. For
/// callers that compare two builds of one scan.
pub fn solutions_differ_in_their_flows_alone()
    ensures { SolutionLaw }
{}

/// The least cost of labels of a scan's cells is below 2^47, however many points the scan has. Labelling all cells outside
/// costs the visibility weight times the sum of the weights of all sights, since each sight has exactly one cell behind it. So
/// the least cost is at most 65,535 times 255 for each of 8,388,608 sights, and fits the 64 bits of a certificate.
pub fn least_costs_fit()
    ensures { LeastCostLaw }
{}
