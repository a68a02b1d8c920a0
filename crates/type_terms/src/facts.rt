//! What the rules of types ask of a text: what its names name, and the rows of its functions.
ghost use Rattle.std.specs.Prelude.{◌≡◌};
ghost use Rattle.type_terms.specs.Facts.{NameTable, FactTable};

use crate::types::Type;
use py_base::{ClassId, FuncId, List, NameId, NodeId, SiteId};

/// How a def stands in the text.
#[derive(Clone, Copy, PartialEq, Eq)]
pub enum FuncKind {
    /// A def outside a class, or a lambda.
    Plain,
    /// A def directly in a class, whose first parameter is the instance.
    Method,
    /// The same under `staticmethod`.
    Static,
    /// The same under `classmethod`, whose first parameter is the class.
    Class,
    /// The same under `property`.
    Property,
}

/// How a parameter takes its argument.
#[derive(Clone, Copy, PartialEq, Eq)]
pub enum ParamKind {
    /// By place alone, before `/`.
    PlaceOnly,
    /// By place or by name.
    Plain,
    /// By name alone, behind `*`.
    KeyOnly,
    /// `*name`.
    Star,
    /// `**name`.
    StarStar,
}

/// A parameter of a function as it is written.
#[derive(Drop)]
pub struct Param {
    pub name: NameId,
    pub kind: ParamKind,
    /// Whether it has a default.
    pub default: bool,
    /// Its annotation, where there is one.
    pub ty: Option<Type>,
}

/// A def or a lambda as it is written.
#[derive(Drop)]
pub struct FuncRow {
    pub kind: FuncKind,
    pub params: List<Param>,
    /// The annotation of its result, where there is one.
    pub result: Option<Type>,
    /// Whether the annotation is a `TypeGuard` or a `TypeIs`, so that a call gives a bool.
    pub guard: bool,
    /// Whether it is an async def.
    pub is_async: bool,
    /// Whether `yield` stands in its body. What a call of either gives is unknown.
    pub is_generator: bool,
}

/// The slots of the value that is made at a site.
#[derive(Clone, Copy, PartialEq, Eq)]
pub enum SiteSlots {
    /// So many, each with a type of its own.
    Filled(u32),
    /// One, for all entries of a tuple of any length.
    Repeated,
}

/// What the names of a text name.
pub trait Names {
    ghost names: { Self → NameTable };

    /// The class that the name or chain at this node names, or the text of a string here that is an
    /// annotation or a part of one; `None` exactly where it names none.
    fn class_at(&self, node: NodeId) -> Option<ClassId>
        ensures { result ≡ (names self.now).class_at node };

    /// The enum member that it names: its class and its name.
    fn member_at(&self, node: NodeId) -> Option<(ClassId, NameId)>
        ensures { result ≡ (names self.now).member_at node };

    /// The name of `typing` that it names.
    fn special_at(&self, node: NodeId) -> Option<NameId>
        ensures { result ≡ (names self.now).special_at node };

    /// The members of an enum in class order; none for a class that is no enum.
    fn enum_members(&self, class: ClassId) -> &[NameId]
        ensures { result.now ≡ (names self.now).enum_members class };
}

/// What is known of the functions and sites of a text.
pub trait Facts: Names {
    ghost facts: { Self → FactTable };

    /// The number of the def or lambda at this node; `None` exactly where it is neither.
    fn func_at(&self, node: NodeId) -> Option<FuncId>
        ensures { result ≡ (facts self.now).func_at node };

    /// The row of a def or a lambda.
    fn func(&self, func: FuncId) -> &FuncRow
        ensures { result.now ≡ (facts self.now).func func };

    /// The class of the innermost class statement around the node; `None` exactly where there is none.
    fn class_around(&self, node: NodeId) -> Option<ClassId>
        ensures { result ≡ (facts self.now).class_around node };

    /// The slots of the value made at a site: as many as a tuple has entries, two for a dict, one for a
    /// list, a set and a generator, none for a lambda, and one for all entries of a tuple of any length,
    /// which a call of `tuple` makes.
    fn site_slots(&self, site: SiteId) -> SiteSlots
        ensures { result ≡ (facts self.now).site_slots site };
}
