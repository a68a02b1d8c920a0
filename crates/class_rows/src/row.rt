//! What is known of one class.
ghost use Rattle.std.specs.Prelude.{◌≡◌};
ghost use Rattle.class_rows.specs.Rows.{symbol_in};

use crate::members::find;
use py_base::{ClassId, List, NameId, SymId};
use std::alloc::Global;
use std::collections::BTreeMap;
use std::marker::Model;

/// The row of a class: its order, whether that is an order by the rule of C3, whether the class
/// has an Unknown base and whether it has a keyword in its head, and its own members.
#[derive(Drop)]
pub(crate) struct Row {
    order: List<ClassId>,
    ordered: bool,
    unknown_base: bool,
    keyword: bool,
    members: BTreeMap<NameId, SymId>,
}

impl Model for Row {
    ghost use Rattle.class_rows.specs.Rows.{ClassRow};

    ghost Value = { ClassRow };

    ghost view = { λ row. record { order = row.order; ordered = row.ordered; unknown_base = row.unknown_base; keyword = row.keyword; members = row.members.entries } };
}

impl Row {
    /// The row of a class with this order and these members.
    pub(crate) fn new(
        order: List<ClassId>,
        ordered: bool,
        unknown_base: bool,
        keyword: bool,
        members: BTreeMap<NameId, SymId>,
    ) -> Row
        ensures { result ≡ record { order = order; ordered = ordered; unknown_base = unknown_base; keyword = keyword; members = members.entries } }
    {
        Row {
            order,
            ordered,
            unknown_base,
            keyword,
            members,
        }
    }

    /// The order of the class, itself first.
    pub(crate) fn order(&self) -> &[ClassId]
        ensures { result.now ≡ self.now.order }
    {
        self.order.as_slice()
    }

    /// Whether the bases give an order.
    pub(crate) fn is_ordered(&self) -> bool
        ensures { result ≡ self.now.ordered }
    {
        self.ordered
    }

    /// Whether one of the class's own bases is Unknown.
    pub(crate) fn has_unknown_base(&self) -> bool
        ensures { result ≡ self.now.unknown_base }
    {
        self.unknown_base
    }

    /// Whether the class statement has a keyword in its head.
    pub(crate) fn has_keyword(&self) -> bool
        ensures { result ≡ self.now.keyword }
    {
        self.keyword
    }

    /// The symbol of the class's own member of this name; `None` exactly where it has none.
    pub(crate) fn member(&self, name: NameId) -> Option<SymId>
        ensures { result ≡ symbol_in name self.now.members }
    {
        find(&self.members, name)
    }
}
