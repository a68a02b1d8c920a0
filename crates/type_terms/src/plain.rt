//! Types and facts that are at hand, as finite maps.
use crate::facts::{Facts, FuncRow, Names, SiteSlots};
use crate::types::Type;
use crate::view::{Types, View};
use py_base::{ClassId, FuncId, Key, List, NameId, NodeId, SiteId, Stop, Text};
use std::alloc::Global;
use std::collections::BTreeMap;

/// Types for finitely many keys, and Never for every other. It is never cancelled, and doesn't tell the
/// keys asked.
#[derive(Drop)]
pub struct PlainTypes {
    /// The type of each key that has one.
    pub types: BTreeMap<Key, Type>,
}

impl Types for PlainTypes {
    ghost use Rattle.std.proofs.Common.{◌∙◌};
    ghost use Rattle.std.specs.Prelude.{◌≡◌, None, [], unwrap_or, refl};
    ghost use Rattle.std.specs.BTreeMap.{get as at};

    ghost assignment = { λ plain key. unwrap_or (at ⟦<Key as Ord>⟧.cmp plain.types key) [] };

    ghost seen = { λ plain. 0 };

    ghost asked = { λ plain. None };

    ghost stays = { λ before now. now ≡ before };

    ghost keeps_itself = { λ now. refl };

    ghost keeps_on = { λ before between now first second. second ∙ first };

    fn get(&mut self, alloc: Global, key: Key) -> Result<Type, Stop> {
        match self.types.get(&key) {
            Some(ty) => Ok(ty.copy(alloc)?),
            None => Ok(Type::empty(alloc)),
        }
    }
}

/// What names name and which rows functions have, for finitely many nodes, classes, functions and sites.
#[derive(Drop)]
pub struct PlainFacts {
    /// The class that the name at a node names.
    pub classes: BTreeMap<NodeId, ClassId>,
    /// The enum member that it names.
    pub members: BTreeMap<NodeId, (ClassId, NameId)>,
    /// The name of `typing` that it names.
    pub specials: BTreeMap<NodeId, NameId>,
    /// The members of each enum in class order.
    pub enums: BTreeMap<ClassId, List<NameId>>,
    /// The function of each def and lambda.
    pub func_nodes: BTreeMap<NodeId, FuncId>,
    /// The rows of functions.
    pub funcs: BTreeMap<FuncId, FuncRow>,
    /// The row of every other function.
    pub other_func: FuncRow,
    /// The class of the innermost class statement around a node.
    pub around: BTreeMap<NodeId, ClassId>,
    /// The slots of the value made at a site, where it has some.
    pub slots: BTreeMap<SiteId, SiteSlots>,
}

impl Names for PlainFacts {
    ghost use Rattle.std.specs.BTreeMap.{get as at};
    ghost use Rattle.type_terms.specs.Plain.{names_by};

    ghost names = { λ plain. names_by (at ⟦<NodeId as Ord>⟧.cmp plain.classes) (at ⟦<NodeId as Ord>⟧.cmp plain.members) (at ⟦<NodeId as Ord>⟧.cmp plain.specials) (at ⟦<ClassId as Ord>⟧.cmp plain.enums) };

    fn class_at(&self, node: NodeId) -> Option<ClassId> {
        self.classes.get(&node).copied()
    }

    fn member_at(&self, node: NodeId) -> Option<(ClassId, NameId)> {
        self.members.get(&node).copied()
    }

    fn special_at(&self, node: NodeId) -> Option<NameId> {
        self.specials.get(&node).copied()
    }

    fn enum_members(&self, class: ClassId) -> &[NameId] {
        match self.enums.get(&class) {
            Some(members) => members.as_slice(),
            None => &[],
        }
    }
}

impl Facts for PlainFacts {
    ghost use Rattle.std.specs.BTreeMap.{get as at};
    ghost use Rattle.type_terms.specs.Plain.{facts_by};

    ghost facts = { λ plain. facts_by (at ⟦<NodeId as Ord>⟧.cmp plain.func_nodes) (at ⟦<FuncId as Ord>⟧.cmp plain.funcs) plain.other_func (at ⟦<NodeId as Ord>⟧.cmp plain.around) (at ⟦<SiteId as Ord>⟧.cmp plain.slots) };

    fn func_at(&self, node: NodeId) -> Option<FuncId> {
        self.func_nodes.get(&node).copied()
    }

    fn func(&self, func: FuncId) -> &FuncRow {
        match self.funcs.get(&func) {
            Some(row) => row,
            None => &self.other_func,
        }
    }

    fn class_around(&self, node: NodeId) -> Option<ClassId> {
        self.around.get(&node).copied()
    }

    fn site_slots(&self, site: SiteId) -> SiteSlots {
        match self.slots.get(&site) {
            Some(slots) => *slots,
            None => SiteSlots::Filled(0),
        }
    }
}

/// Types and facts with the words for their numbers, so that texts of types can be taken from them.
#[derive(Drop)]
pub struct PlainView {
    pub types: PlainTypes,
    pub facts: PlainFacts,
    /// The type of each parameter, by its function and its place; Never for every other.
    pub params: BTreeMap<(FuncId, u32), Type>,
    /// The texts of names; the empty text for every other. So with classes and rows of builtins.
    pub words: BTreeMap<NameId, Text>,
    pub class_words: BTreeMap<ClassId, Text>,
    pub row_words: BTreeMap<u32, Text>,
}

impl Types for PlainView {
    ghost use Rattle.std.proofs.Common.{◌∙◌};
    ghost use Rattle.std.specs.Prelude.{◌≡◌, refl};

    ghost assignment = { λ plain. ⟦<PlainTypes as Types>⟧.assignment plain.types };

    ghost seen = { λ plain. ⟦<PlainTypes as Types>⟧.seen plain.types };

    ghost asked = { λ plain. ⟦<PlainTypes as Types>⟧.asked plain.types };

    ghost stays = { λ before now. now ≡ before };

    ghost keeps_itself = { λ now. refl };

    ghost keeps_on = { λ before between now first second. second ∙ first };

    fn get(&mut self, alloc: Global, key: Key) -> Result<Type, Stop> {
        self.types.get(alloc, key)
    }
}

impl Names for PlainView {
    ghost names = { λ plain. ⟦<PlainFacts as Names>⟧.names plain.facts };

    fn class_at(&self, node: NodeId) -> Option<ClassId> {
        self.facts.class_at(node)
    }

    fn member_at(&self, node: NodeId) -> Option<(ClassId, NameId)> {
        self.facts.member_at(node)
    }

    fn special_at(&self, node: NodeId) -> Option<NameId> {
        self.facts.special_at(node)
    }

    fn enum_members(&self, class: ClassId) -> &[NameId] {
        self.facts.enum_members(class)
    }
}

impl Facts for PlainView {
    ghost facts = { λ plain. ⟦<PlainFacts as Facts>⟧.facts plain.facts };

    fn func_at(&self, node: NodeId) -> Option<FuncId> {
        self.facts.func_at(node)
    }

    fn func(&self, func: FuncId) -> &FuncRow {
        self.facts.func(func)
    }

    fn class_around(&self, node: NodeId) -> Option<ClassId> {
        self.facts.class_around(node)
    }

    fn site_slots(&self, site: SiteId) -> SiteSlots {
        self.facts.site_slots(site)
    }
}

impl View for PlainView {
    ghost use Rattle.std.proofs.Common.{ap};
    ghost use Rattle.std.specs.BTreeMap.{get as at};
    ghost use Rattle.type_terms.specs.Plain.{view_by};

    ghost view = { λ plain. view_by (at ⟦<NameId as Ord>⟧.cmp plain.words) (at ⟦<ClassId as Ord>⟧.cmp plain.class_words) (at ⟦<u32 as Ord>⟧.cmp plain.row_words) (at ⟦<(FuncId, u32) as Ord>⟧.cmp plain.params) };

    fn param(&mut self, alloc: Global, func: FuncId, place: u32) -> Result<Type, Stop> {
        match self.params.get(&(func, place)) {
            Some(ty) => Ok(ty.copy(alloc)?),
            None => Ok(Type::empty(alloc)),
        }
    }

    fn word(&self, name: NameId) -> &str {
        match self.words.get(&name) {
            Some(word) => word.as_str(),
            None => "",
        }
    }

    fn class_word(&self, class: ClassId) -> &str {
        match self.class_words.get(&class) {
            Some(word) => word.as_str(),
            None => "",
        }
    }

    fn row_word(&self, row: u32) -> &str {
        match self.row_words.get(&row) {
            Some(word) => word.as_str(),
            None => "",
        }
    }

    ghost keeps_names = { λ before now same. ap (λ (plain : Self). ⟦<PlainFacts as Names>⟧.names plain.facts) same };

    ghost keeps_facts = { λ before now same. ap (λ (plain : Self). ⟦<PlainFacts as Facts>⟧.facts plain.facts) same };

    ghost keeps_view = { λ before now same. ap (λ (plain : Self). view_by (at ⟦<NameId as Ord>⟧.cmp plain.words) (at ⟦<ClassId as Ord>⟧.cmp plain.class_words) (at ⟦<u32 as Ord>⟧.cmp plain.row_words) (at ⟦<(FuncId, u32) as Ord>⟧.cmp plain.params)) same };
}
