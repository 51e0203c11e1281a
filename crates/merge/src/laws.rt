//! Theorems over the definitions, as the contracts of calls that do nothing.

ghost use Rattle.merge.specs.Laws.{EachRowHasAnIndex, MergedPointsAreFew, MergedPointsAreWithin};

/// At the index of a row's point among the merged points is this point. There are no more merged points than rows, and no
/// coordinate of a merged point has a greater absolute value than those of the rows' points. For callers that map rows to
/// vertices and back.
pub fn each_row_has_its_point()
    ensures index { EachRowHasAnIndex }
    ensures few { MergedPointsAreFew }
    ensures within { MergedPointsAreWithin }
{}
