//! What holds between the costs of labels and the values of flows in every network, as contracts of calls that do
//! nothing. It depends on the definitions alone.

ghost use Rattle.flow_net.specs.Laws.{ValueIsAtMostCost, EqualIsBest};

/// The value of a valid flow is at most the cost of any admissible labels.
/// Use it to bound how far one of the two is from the best.
pub fn value_is_at_most_cost()
    ensures { ValueIsAtMostCost }
{}

/// A valid flow whose value is the cost of some admissible labels is a largest one,
/// and the labels are of the least cost.
/// Use it to check labels without solving anything.
pub fn equal_value_and_cost_are_best()
    ensures { EqualIsBest }
{}
