//! Chains: a name, and the names behind it by dots.
ghost use Rattle.std.specs.Prelude.{◌≡◌};
ghost use Rattle.std.specs.Option.{option_map};
ghost use Rattle.node_shapes.specs.Chains.{chain};
ghost use Rattle.node_shapes.specs.Expressions.{expression};
ghost use Rattle.binding_sources.specs.Meanings.{short_chain};
ghost use Rattle.binding_sources.specs.Joining.{with_name, link_by};

use node_shapes::{Expression, expression_at};
use py_base::{NameId, NodeId, Tree};

/// The names that stand behind the first name of a chain, as far as one.
#[derive(Clone, Copy)]
pub enum NamesBehind {
    Nothing,
    Name(NameId),
    /// Two or more.
    Several,
}

/// A chain (Python 3.12 language reference, 6.2.1 and 6.3.1), with the names behind its first as far as one.
#[derive(Clone, Copy)]
pub struct ShortChain {
    /// The node of the first name.
    pub first: NodeId,
    pub behind: NamesBehind,
}

// What a node is in a chain.
#[derive(Clone, Copy)]
enum Link {
    First,
    /// An attribute or brackets: the node within, and the name behind that of an attribute.
    Further(NodeId, Option<NameId>),
    NoLink,
}

fn link_at(tree: &Tree, node: NodeId) -> Link
    ensures { result ≡ link_by (expression tree.now.nodes node) }
{
    match expression_at(tree, node) {
        Expression::Name(_) => Link::First,
        Expression::Attribute(inner, name) => Link::Further(inner, Some(name)),
        Expression::Group(inner) => Link::Further(inner, None),
        _ => Link::NoLink,
    }
}

// The names behind, with one before them.
fn with_name(name: Option<NameId>, behind: NamesBehind) -> NamesBehind
    ensures { result ≡ with_name name behind }
{
    match (name, behind) {
        (None, _) => behind,
        (Some(name), NamesBehind::Nothing) => NamesBehind::Name(name),
        (Some(_), _) => NamesBehind::Several,
    }
}

/// The chain that a node is, brackets around one expression seen through; `None` exactly where it is none.
pub fn chain_at(tree: &Tree, node: NodeId) -> Option<ShortChain>
    ensures { result ≡ option_map short_chain (chain tree.now.nodes node) }
{
    let mut here = node;
    let mut behind = NamesBehind::Nothing;
    for _ in 0..node.0 as usize + 1 {
        match link_at(tree, here) {
            Link::First => {
                return Some(ShortChain {
                    first: here,
                    behind,
                });
            }
            Link::Further(inner, name) => {
                here = inner;
                behind = with_name(name, behind);
            }
            Link::NoLink => return None,
        }
    }
    None
}
