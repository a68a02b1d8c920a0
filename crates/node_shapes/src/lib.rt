//! The shape of each node: what a form of the language is made of, read from kinds, words and parts in one place.
//!
//! In one sentence: what a node is (an expression, an entry, a target, a pattern, a statement, a clause, a header, a parameter, an item of
//! an import), what it does with the names in its parts, and in what it stands, are total functions of the nodes
//! of a tree. The definitions are `expression`, `entries_of`, `entry`, `chain`, `target`, `pattern`, `statement`, `statements_of`,
//! `clauses`, `header`, `function`, `class_definition`, `parameters_of`, `import_item`, `part_use`, `use_of`, `outward` and
//! those of `Around.antt`, `Items.antt` and `Bodies.antt` in `specs/`. Nothing stands below but `py_base`.
#![tactic(auto)]

pub mod bodies;
pub mod clauses;
pub mod definitions;
pub mod entries;
pub mod expressions;
pub mod imports;
pub mod items;
pub mod outward;
pub mod parameters;
pub mod part_uses;
mod parts;
pub mod patterns;
pub mod statements;
pub mod steps;
pub mod surroundings;
pub mod targets;
pub mod uses;

pub use bodies::{enum_members, is_only_stubs, yields};
pub use clauses::{
    ClassHeader, Clause, DefHeader, ExceptHeader, Header, WithEntry, clause_at, header_at,
    with_entry_at, with_items,
};
pub use definitions::{
    ClassDefinition, Function, class_at, decorators_in, function_at, parameters_of,
};
pub use entries::{
    ComprehensionClause, Entry, comprehension_clause, comprehension_clauses, entries_of, entry_at,
};
pub use expressions::{Choice, Container, Expression, Literal, comparison_at, expression_at, seen};
pub use imports::{ImportItem, import_item, import_items, import_origin};
pub use items::Items;
pub use outward::Step;
pub use parameters::{Parameter, ParameterForm};
pub use part_uses::{PartUse, part_use};
pub use patterns::{Pattern, pattern_at};
pub use statements::{
    AnnotatedAssignment, AugmentedAssignment, Statement, TypeAlias, assigned_targets, side_by_side,
    statement_at, statement_parts,
};
pub use steps::Outward;
pub use surroundings::Sought;
pub use targets::{Target, target_at};
pub use uses::use_at;
