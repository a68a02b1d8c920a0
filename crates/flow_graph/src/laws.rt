//! What follows of the flow of a tree. The functions do nothing, and their contracts are laws.
ghost use Rattle.flow_graph.specs.Laws.{ReferencesAreThere, HiddenReferencesAreThere, RootsAreSymbols};

/// What is read or bound at a point of a graph is one of the references of this graph.
pub fn references_are_there()
    ensures { ReferencesAreThere }
{}

/// The hidden reference of a `match` is one of the references of the graph that has the statement's own point.
pub fn hidden_references_are_there()
    ensures { HiddenReferencesAreThere }
{}

/// The symbol that a reference begins with is one of those of the scopes.
pub fn roots_are_symbols()
    ensures { RootsAreSymbols }
{
    node_references::laws::roots_are_owned();
}
