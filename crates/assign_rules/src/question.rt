//! What is asked of two types.
use sqlite_items::Items;
use type_terms::Atom;

/// A question of two types, each a list of members.
#[derive(Drop)]
pub enum Question {
    /// Whether each member of the first is accepted by the second.
    Accepted(Items<Atom>, Items<Atom>),
    /// Whether the two are the same, as the slots of a list have to be.
    Same(Items<Atom>, Items<Atom>),
}
