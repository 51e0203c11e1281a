//! Theorems over the definitions, as the contracts of calls that do nothing.

ghost use Rattle.flow_check.specs.Laws.{OneVerdict, HasLeastInside, LeastInsideIsUnique};

/// No labels and flow have two verdicts.
/// Use it to compare two verdicts: a fault that was named is the one.
pub fn verdicts_are_unique()
    ensures { OneVerdict }
{}

/// Each network has exactly one minimum cut with the smallest inside.
/// Use it to compare two answers: two minimum cuts with the smallest inside are equal.
pub fn exactly_one_is_least_inside()
    ensures exists { HasLeastInside }
    ensures unique { LeastInsideIsUnique }
{}
