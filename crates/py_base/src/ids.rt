//! Numbers of things, each kind with a type of its own, so that none is taken for another.

/// A node of a tree, by its place in the order in which nodes were added.
#[derive(Clone, Copy, Debug, PartialEq, Eq, PartialOrd, Ord, Hash)]
pub struct NodeId(pub u32);

/// A point of a code flow graph.
#[derive(Clone, Copy, Debug, PartialEq, Eq, PartialOrd, Ord, Hash)]
pub struct PointId(pub u32);

/// A reference of a graph: a symbol or a chain of names behind one.
#[derive(Clone, Copy, Debug, PartialEq, Eq, PartialOrd, Ord, Hash)]
pub struct RefId(pub u32);

/// A code flow graph: that of the module, of a def or of a lambda.
#[derive(Clone, Copy, Debug, PartialEq, Eq, PartialOrd, Ord, Hash)]
pub struct GraphId(pub u32);

/// A symbol of a scope.
#[derive(Clone, Copy, Debug, PartialEq, Eq, PartialOrd, Ord, Hash)]
pub struct SymId(pub u32);

/// A def or a lambda.
#[derive(Clone, Copy, Debug, PartialEq, Eq, PartialOrd, Ord, Hash)]
pub struct FuncId(pub u32);

/// A class: the builtin ones first, then those of the file in the order of its text.
#[derive(Clone, Copy, Debug, PartialEq, Eq, PartialOrd, Ord, Hash)]
pub struct ClassId(pub u32);

/// A name. Equal names of a tree have one number.
#[derive(Clone, Copy, Debug, PartialEq, Eq, PartialOrd, Ord, Hash)]
pub struct NameId(pub u32);

/// Which of the values of a call a site is: the iterable itself, or the tuples that it gives.
#[derive(Clone, Copy, Debug, PartialEq, Eq, PartialOrd, Ord, Hash)]
pub enum InnerTuple {
    /// The value that the node itself makes.
    None,
    /// The pairs of `enumerate` and `items`: two slots.
    Pair,
    /// The tuples of `zip`: as many slots as the call has plain arguments.
    Zip(u32),
}

/// The value that a display, a comprehension, a lambda or a building call makes: its node, the
/// class of the value, and which inner tuple it is.
#[derive(Clone, Copy, Debug, PartialEq, Eq, PartialOrd, Ord, Hash)]
pub struct SiteId {
    pub node: NodeId,
    pub class: ClassId,
    pub inner: InnerTuple,
}
