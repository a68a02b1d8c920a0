//! Parts of nodes.
ghost use Rattle.std.specs.Prelude.{◌≡◌};
ghost use Rattle.node_shapes.specs.Parts.{is_last_comma, without_comma, last_or, but_last};

use py_base::{NodeId, NodeKind, Tree};

/// The last of the parts, and where there are none the given node.
pub(crate) fn last_or(here: NodeId, parts: &[NodeId]) -> NodeId
    ensures { result ≡ last_or here parts.now }
{
    let mut last = here;
    for part in parts {
        last = *part;
    }
    last
}

/// All parts but the last.
#[tactic(auto, using(crate::proofs::LastParts::but_last_end))]
pub(crate) fn but_last(parts: &[NodeId]) -> &[NodeId]
    ensures { result.now ≡ but_last parts.now }
{
    match parts.split_last() {
        Some((_, before)) => before,
        None => parts,
    }
}

fn is_last_comma(kind: NodeKind) -> bool
    ensures { result ≡ is_last_comma kind }
{
    matches!(kind, NodeKind::LastComma)
}

/// All parts but the comma behind the last.
#[tactic(auto, using(crate::proofs::LastParts::without_comma_at, crate::proofs::LastParts::without_comma_other))]
pub(crate) fn without_comma<'a>(tree: &Tree, parts: &'a [NodeId]) -> &'a [NodeId]
    ensures { result.now ≡ without_comma tree.now.nodes parts.now }
{
    match parts.split_last() {
        None => parts,
        Some((last, before)) => {
            if is_last_comma(tree.kind(*last)) {
                before
            } else {
                parts
            }
        }
    }
}
