//! Theorems over the definitions, as the contracts of calls that do nothing.

ghost use Rattle.solid_query.specs.Laws.{LabelsAreCertified, LabelsAreUnique, PointsHaveLabels};

/// The list of labels of points in a scan at given settings is unique. For callers that compare two answers for the same
/// points.
pub fn labels_are_unique()
    ensures { LabelsAreUnique }
{}

/// Among all Delaunay cells each data point has exactly one label, even if it is a vertex or lies on a facet: the perturbed
/// point lies strictly inside exactly one cell. For callers that ask for any point.
pub fn points_have_labels()
    ensures { PointsHaveLabels }
{}

/// A solution of a scan and the labels of points in it agree: a point is inside exactly if the perturbed point lies in one of
/// the inside cells that the certificate lists. For callers that have a certificate and classify points without the scan's
/// labels.
pub fn labels_are_certified()
    ensures { LabelsAreCertified }
{}
