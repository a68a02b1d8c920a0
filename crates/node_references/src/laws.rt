//! What follows of references. The functions do nothing, and their contracts are laws.
ghost use Rattle.node_references.specs.Laws.{RootsAreOwned};

/// The symbol that a reference begins with is that of some name.
pub fn roots_are_owned()
    ensures { RootsAreOwned }
{}
