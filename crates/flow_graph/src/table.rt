//! What is known of the references of a tree's graphs.

use crate::condition::Tested;
use node_references::ReferenceList;
use py_base::{List, NameId, NodeId, RefId};

/// The references of the code flow graphs of a tree, each with a number, and with each the one before its last
/// name and that name; by node the one that is read, by point the one that is bound, with the node that says to what, by node what it tests, and by graph those that occur
/// in it; and points times references, summed over the graphs.
#[derive(Drop)]
pub struct References {
    pub list: ReferenceList,
    pub prefixes: List<Option<(RefId, NameId)>>,
    pub reads: List<Option<RefId>>,
    pub bindings: List<Option<(RefId, NodeId)>>,
    pub tests: List<Tested>,
    pub graphs: List<List<RefId>>,
    pub size: u64,
}
