//! What the rules ask about the program.
ghost use Rattle.std.specs.Prelude.{◌≡◌, IfOk};
ghost use Rattle.std.specs.Option.{option_copied};
ghost use Rattle.op_rules.specs.World.{World};
ghost use Rattle.type_terms.specs.Widen.{widen};

use crate::facts::{Hiding, MemberFacts};
use class_rows::ClassRows;
use py_base::{ClassId, FuncId, NameId, NoMemory, NodeId, SiteId, SymId};
use std::alloc::Global;
use type_terms::facts::{FuncRow, SiteSlots};
use type_terms::{BuiltinTable, Row, Type};

/// A program as the rules see it. No call but `widened` takes memory.
pub trait Program {
    ghost world: { Self → World };

    /// The classes with their orders and members.
    fn classes(&self) -> &ClassRows
        ensures { result.now ≡ (world self.now).classes };

    /// The members of an enum in class order.
    fn enum_members(&self, class: ClassId) -> &[NameId]
        ensures { result.now ≡ (world self.now).names.enum_members class };

    /// The row of a builtin method that the class itself has.
    fn method(&self, class: ClassId, name: NameId) -> Option<u32>
        ensures { result ≡ (world self.now).builtins.method class name };

    /// A type, widened.
    fn widened(&self, alloc: Global, ty: &Type) -> Result<Type, NoMemory>
        ensures { IfOk result (λ wide. wide ≡ widen (world self.now).names ty.now) };

    /// The row of a call of a class.
    fn class_call(&self, class: ClassId) -> Option<u32>
        ensures { result ≡ (world self.now).builtins.class_call class };

    /// The type of a name of a module.
    fn module_name(&self, source: NameId, name: NameId) -> Option<&Type>
        ensures { option_copied result ≡ (world self.now).builtins.module_name source name };

    /// What stands in a builtin row.
    fn row(&self, row: u32) -> &Row
        ensures { result.now ≡ (world self.now).builtins.row row };

    /// The row of a def or a lambda.
    fn func(&self, func: FuncId) -> &FuncRow
        ensures { result.now ≡ (world self.now).facts.func func };

    /// The def or lambda at a node.
    fn func_at(&self, node: NodeId) -> Option<FuncId>
        ensures { result ≡ (world self.now).facts.func_at node };

    /// The class of the innermost class statement around a node.
    fn class_around(&self, node: NodeId) -> Option<ClassId>
        ensures { result ≡ (world self.now).facts.class_around node };

    /// The slots of the value made at a site.
    fn site_slots(&self, site: SiteId) -> SiteSlots
        ensures { result ≡ (world self.now).facts.site_slots site };

    /// Whether a name begins and ends with two underscores.
    fn is_dunder(&self, name: NameId) -> bool
        ensures { result ≡ (world self.now).members.is_dunder name };

    /// Whether the symbol of a member hides what stands behind it.
    fn hiding(&self, symbol: SymId) -> Hiding
        ensures { result ≡ (world self.now).members.hiding symbol };
}

/// The classes, the builtins and the facts of a program.
#[derive(Drop)]
pub struct Rules<'a, B: BuiltinTable, F: MemberFacts> {
    pub classes: &'a ClassRows,
    pub builtins: &'a B,
    pub facts: &'a F,
}

impl<'a, B: BuiltinTable, F: MemberFacts> Program for Rules<'a, B, F> {
    ghost use Rattle.op_rules.specs.World.{World};

    ghost world = { λ r. record { classes = r.classes.now; names = F.names r.facts.now; facts = F.facts r.facts.now; builtins = B.rows r.builtins.now; members = F.members r.facts.now } };

    fn classes(&self) -> &ClassRows {
        self.classes
    }

    fn enum_members(&self, class: ClassId) -> &[NameId] {
        self.facts.enum_members(class)
    }

    fn method(&self, class: ClassId, name: NameId) -> Option<u32> {
        self.builtins.method(class, name)
    }

    fn widened(&self, alloc: Global, ty: &Type) -> Result<Type, NoMemory> {
        ty.widen(alloc, self.facts)
    }

    fn class_call(&self, class: ClassId) -> Option<u32> {
        self.builtins.class_call(class)
    }

    fn module_name(&self, source: NameId, name: NameId) -> Option<&Type> {
        self.builtins.module_name(source, name)
    }

    fn row(&self, row: u32) -> &Row {
        self.builtins.row(row)
    }

    fn func(&self, func: FuncId) -> &FuncRow {
        self.facts.func(func)
    }

    fn func_at(&self, node: NodeId) -> Option<FuncId> {
        self.facts.func_at(node)
    }

    fn class_around(&self, node: NodeId) -> Option<ClassId> {
        self.facts.class_around(node)
    }

    fn site_slots(&self, site: SiteId) -> SiteSlots {
        self.facts.site_slots(site)
    }

    fn is_dunder(&self, name: NameId) -> bool {
        self.facts.is_dunder(name)
    }

    fn hiding(&self, symbol: SymId) -> Hiding {
        self.facts.hiding(symbol)
    }
}
