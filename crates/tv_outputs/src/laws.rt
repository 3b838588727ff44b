//! That a region has a node for each place at which something is known, and hardly any others: laws, of
//! which the program runs nothing.
//!
//! Outputs (`tv_outputs`) keep a tree for each output in the nodes of one region. The node of a
//! place lies in a slot of its own, so the region has at least as many nodes as there are places of
//! its trees at which something is known. It has no more, but for the roots of trees of which nothing is
//! known, and so no more than values that the trees are below.
//!
//! - `specs/Stated.antt`: the laws
ghost use Rattle.tv_outputs.specs.Stated.{PlacesHaveNodes, TreesHaveAllNodes, TreesHaveNoMore};
ghost use Rattle.tv_outputs.specs.Worked.{CountsKnownPlaces};

/// A region has at least one node for each place of its trees at which something is known.
pub fn known_places()
    ensures { PlacesHaveNodes }
{}

/// And it has no others but the roots of trees of which nothing is known: no more than its trees
/// have, and a tree has no more than a value that it is below.
pub fn all_nodes()
    ensures trees { TreesHaveAllNodes }
    ensures values { TreesHaveNoMore }
{}

/// A worked example.
pub fn worked()
    ensures { CountsKnownPlaces }
{}
