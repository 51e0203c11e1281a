//! Theorems on the definitions, as the contracts of calls that do nothing.

ghost use Rattle.visibility.specs.Laws.{CapacitiesFit, SinksFit, LeastCostIsSmall, FacetsAreOrdered, OneComplex};
ghost use Rattle.visibility.specs.Scenes.{Scene};
ghost use Rattle.visibility.specs.Complexes.{Complex};
ghost use Rattle.visibility.specs.Listings.{IsListingOf};
ghost use Rattle.visibility.specs.ListingLaws.{EachOnce, ListingsAgree};

/// Each capacity and each sink is below 2^48 where there are at most 8,388,608 sights of weights from 1 to 255. Where each
/// sight has at most one cell behind it, the least cost of labels is below 2^47 whatever the number of vertices: all cells
/// outside cost their sinks, and these are together at most the visibility weight times the weights of all sights. Use it to
/// choose integers for capacities and costs.
pub fn amounts_fit()
    ensures capacities { CapacitiesFit }
    ensures sinks { SinksFit }
    ensures small { LeastCostIsSmall }
{}

/// A scene has one list of cells and one list of facets that have a capacity. Each of these facets is written with its smallest
/// number first, since a cell's numbers ascend.
/// Use it to compare two lists of a scene's cells or facets.
pub fn facets_are_listed_once()
    ensures ordered { FacetsAreOrdered }
    ensures one { OneComplex }
{}

/// Nothing depends on the order in which cells and facets are listed: over two listings of one scene all labels and flows are
/// judged alike. A listing has each cell and each facet that has a capacity once, and the ascending lists are one. Use it to
/// list a scene's cells in another order.
pub fn order_decides_nothing()
    ensures once { (s : Scene) (listing : Complex) → IsListingOf s listing → EachOnce s listing }
    ensures alike { ListingsAgree }
{}
