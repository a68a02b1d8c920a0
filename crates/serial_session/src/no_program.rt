//! What the text of a type is taken from as long as no program stands behind a type.
ghost use Rattle.std.specs.Prelude.{◌≡◌};
ghost use Rattle.serial_session.specs.TypeText.{unwritten};

use py_base::{ClassId, FuncId, Key, List, NameId, NodeId, SiteId, Stop};
use std::alloc::Global;
use type_terms::Type;
use type_terms::facts::{Facts, FuncKind, FuncRow, Names, SiteSlots};
use type_terms::view::{Types, View};

/// No program: no key, name or function is known.
#[derive(Drop)]
pub struct NoProgram {
    function: FuncRow,
}

impl NoProgram {
    pub fn new(alloc: Global) -> NoProgram
        ensures { result.function ≡ unwritten }
    {
        NoProgram {
            function: FuncRow {
                kind: FuncKind::Plain,
                params: List::new(alloc),
                result: None,
                guard: false,
                is_async: false,
                is_generator: false,
            },
        }
    }
}

impl Types for NoProgram {
    ghost use Rattle.std.specs.Prelude.{◌≡◌, None};
    ghost use Rattle.std.proofs.Common.{◌∙◌, refl};
    ghost use Rattle.serial_session.specs.TypeText.{nothing_known};

    ghost assignment = { λ program. nothing_known.assignment };

    ghost seen = { λ program. 0 };

    ghost asked = { λ program. None };

    ghost stays = { λ before now. now ≡ before };

    ghost keeps_itself = { λ program. refl };

    ghost keeps_on = { λ first then now one two. two ∙ one };

    fn get(&mut self, alloc: Global, _key: Key) -> Result<Type, Stop> {
        Ok(Type::empty(alloc))
    }
}

impl Names for NoProgram {
    ghost use Rattle.serial_session.specs.TypeText.{nothing_known};

    ghost names = { λ program. nothing_known.names };

    fn class_at(&self, _node: NodeId) -> Option<ClassId> {
        None
    }

    fn member_at(&self, _node: NodeId) -> Option<(ClassId, NameId)> {
        None
    }

    fn special_at(&self, _node: NodeId) -> Option<NameId> {
        None
    }

    fn enum_members(&self, _class: ClassId) -> &[NameId] {
        &[]
    }
}

impl Facts for NoProgram {
    ghost use Rattle.serial_session.specs.TypeText.{nothing_known};

    ghost facts = { λ program. record nothing_known.facts { func = λ func. program.function } };

    fn func_at(&self, _node: NodeId) -> Option<FuncId> {
        None
    }

    fn func(&self, _func: FuncId) -> &FuncRow {
        &self.function
    }

    fn class_around(&self, _node: NodeId) -> Option<ClassId> {
        None
    }

    fn site_slots(&self, _site: SiteId) -> SiteSlots {
        SiteSlots::Filled(0)
    }
}

impl View for NoProgram {
    ghost use Rattle.std.proofs.Common.{refl};
    ghost use Rattle.serial_session.specs.TypeText.{nothing_known};

    ghost view = { λ program. nothing_known.view };

    ghost keeps_names = { λ before now same. refl };

    ghost keeps_facts = { λ before now same. cc };

    ghost keeps_view = { λ before now same. refl };

    fn param(&mut self, alloc: Global, _func: FuncId, _place: u32) -> Result<Type, Stop> {
        Ok(Type::empty(alloc))
    }

    fn word(&self, _name: NameId) -> &str {
        ""
    }

    fn class_word(&self, _class: ClassId) -> &str {
        ""
    }

    fn row_word(&self, _row: u32) -> &str {
        ""
    }
}
