//! The occurrences of names in a module.
ghost use Rattle.std.specs.Prelude.{◌≡◌, ◌<◌, ◌++◌, Some, IfOk, OnOk, codes, bytes_eq, length, map, slice_get};
ghost use Rattle.std.specs.List.{list_any};
ghost use Rattle.std.specs.Option.{option_to_list};
ghost use Rattle.py_scopes.specs.Kinds.{is_case, is_named, makes_member};
ghost use Rattle.py_scopes.specs.Occurrences.{of_kind, binder, only_spells, in_pattern_string, counts, is_group, target_way, node_around, target_binder, decorated, is_first_part, is_first_parameter, text_of, word_name, name_if, def_name, is_init, object_of, read_by, static_at, static_or, read_role, role_of, some_binder, effect_by, annotation_of, annotation_by, role_if, role_at, scopes_for, is_builtin, occurrence_on, leaf_name, occurrence_if, occurrence_at, occurrences, node_ids};
ghost use Rattle.py_base.specs.Nodes.{parts_at};
ghost use Rattle.py_scopes.specs.Tables.{steps_outward, AreBelow};

use crate::around::{kind_around, scopes_along};
use crate::kinds::{
    bound_as, does_bind, does_hand_on, does_make_member, does_spell, is_annotated, is_dotted,
    is_long_parameter, star_of,
};
use crate::roles::{NameRole, seen_as};
use crate::scope::{Scope, from_taker};
use crate::way::{Step, way_out};
use py_base::language_names::BUILTIN_NAMES;
use py_base::{List, NameId, NoMemory, NodeId, NodeKind, Tree, Word};
use std::alloc::Global;

/// What a name is there for.
#[derive(Clone, Copy)]
pub enum Role {
    Read,
    /// `staticmethod` as a decorator of this statement.
    Static(NodeId),
    /// The `p` of this target `p.m`, and its `m`.
    Object(NodeId, NameId),
    /// It is bound here, by `del` and by an annotation without a value too.
    Binding,
    /// It is bound as the first parameter of a def, which has no star; whether of an `__init__`.
    FirstParameter(bool),
    /// It is declared `global`.
    Global,
    /// It is declared `nonlocal`.
    Nonlocal,
}

/// The stars before a parameter that is annotated.
#[derive(Clone, Copy)]
pub enum Star {
    /// None, and where no parameter is annotated.
    Plain,
    /// `*`: the type of the name is `tuple[T, ...]`, T being that of the annotation.
    Single,
    /// `**`: the type of the name is `dict[str, T]`.
    Double,
}

/// An annotation of a name, an attribute or a parameter.
#[derive(Clone, Copy)]
pub struct Annotation {
    pub node: NodeId,
    /// Where in the text it begins, in bytes.
    pub from: u32,
    /// The stars of the parameter, if it is one's.
    pub star: Star,
}

/// Where a name stands.
#[derive(Drop)]
pub struct Occurrence {
    /// The `Name`.
    pub node: NodeId,
    pub name: NameId,
    pub role: Role,
    /// The scopes around it, the innermost first, and for a binding those from the one that it binds
    /// in outward.
    pub scopes: List<Scope>,
    /// What binds it, or the target whose `p` it is, gives it this role; `Read` where nothing does.
    pub effect: NameRole,
    /// The annotation of what is bound here, where it has one.
    pub annotation: Option<Annotation>,
}

fn is_case(binder: Option<Step>) -> bool
    ensures { result ≡ of_kind is_case binder }
{
    match binder {
        Some(step) => step.kind == NodeKind::Case,
        None => false,
    }
}

fn is_named(binder: Option<Step>) -> bool
    ensures { result ≡ of_kind is_named binder }
{
    match binder {
        Some(step) => step.kind == NodeKind::Named,
        None => false,
    }
}

fn does_make_target(binder: Option<Step>) -> bool
    ensures { result ≡ of_kind makes_member binder }
{
    match binder {
        Some(step) => does_make_member(step.kind),
        None => false,
    }
}

// What binds the place that the way leads out from.
fn binder(way: &[Step]) -> Option<Step>
    ensures { result ≡ binder way.now }
{
    let (step, outward) = way.split_first()?;
    if does_bind(step.kind, step.part, step.parts) {
        Some(*step)
    } else if does_hand_on(step.kind, step.part) {
        binder(outward)
    } else {
        None
    }
}

fn does_only_spell(way: &[Step]) -> bool
    ensures { result ≡ only_spells way.now }
{
    match way.split_first() {
        Some((step, outward)) => {
            does_spell(step.kind, step.part) || (is_dotted(step.kind) && does_only_spell(outward))
        }
        None => false,
    }
}

fn is_in_pattern_string(way: &[Step]) -> bool
    ensures { result ≡ in_pattern_string way.now }
{
    match way.split_first() {
        Some((step, outward)) => {
            (step.kind == NodeKind::Strings && is_case(binder(outward)))
                || is_in_pattern_string(outward)
        }
        None => false,
    }
}

// Whether the name counts as one; it is `_`, or it isn't.
fn does_count(is_underscore: bool, way: &[Step]) -> bool
    ensures { result ≡ counts is_underscore way.now }
{
    !does_only_spell(way) && !is_in_pattern_string(way) && !(is_underscore && is_case(binder(way)))
}

fn is_group(step: &Step) -> bool
    ensures { result ≡ is_group step.now }
{
    step.kind == NodeKind::Round && step.parts == 1
}

fn target_way(way: &[Step]) -> &[Step]
    ensures { result.now ≡ target_way way.now }
{
    match way.split_first() {
        Some((step, outward)) => {
            if step.kind == NodeKind::Attribute {
                way
            } else if is_group(step) {
                target_way(outward)
            } else {
                &[]
            }
        }
        None => way,
    }
}

fn node_around(way: &[Step]) -> NodeId
    ensures { result ≡ node_around way.now }
{
    match way.split_first() {
        Some((step, _)) => step.around,
        None => NodeId(0),
    }
}

fn target_binder(target: &[Step]) -> Option<Step>
    ensures { result ≡ target_binder target.now }
{
    let (_, outward) = target.split_first()?;
    let binder = binder(outward);
    if does_make_target(binder) {
        binder
    } else {
        None
    }
}

fn decorated(way: &[Step]) -> Option<NodeId>
    ensures { result ≡ decorated way.now }
{
    let (step, outward) = way.split_first()?;
    if step.kind == NodeKind::Decorator {
        Some(node_around(outward))
    } else if is_group(step) {
        decorated(outward)
    } else {
        None
    }
}

fn is_first_part(way: &[Step]) -> bool
    ensures { result ≡ is_first_part way.now }
{
    match way.split_first() {
        Some((step, _)) => step.kind == NodeKind::Parameters && step.part == 0,
        None => false,
    }
}

fn is_first_parameter(way: &[Step]) -> bool
    ensures { result ≡ is_first_parameter way.now }
{
    match way.split_first() {
        Some((step, outward)) => {
            is_first_part(way)
                || (is_long_parameter(step.kind) && step.part == 0 && is_first_part(outward))
        }
        None => false,
    }
}

/// The text of a name; nothing where the tree has no such name.
pub(crate) fn text_of(tree: &Tree, name: NameId) -> &str
    ensures { result.now ≡ text_of tree.now.names name }
{
    if (name.0 as usize) < tree.name_count() {
        tree.name(name)
    } else {
        ""
    }
}

fn name_if(tree: &Tree, id: Option<NodeId>) -> Option<NameId>
    ensures { result ≡ name_if tree.now id }
{
    match id {
        Some(id) => tree.name_of(id),
        None => None,
    }
}

// The name of the innermost def whose header is on the way.
fn def_name(tree: &Tree, way: &[Step]) -> Option<NameId>
    ensures { result ≡ def_name tree.now way.now }
{
    let (step, outward) = way.split_first()?;
    if step.kind == NodeKind::Def {
        name_if(tree, part_at(tree, step.around, 0))
    } else {
        def_name(tree, outward)
    }
}

fn is_init(tree: &Tree, name: Option<NameId>) -> bool
    ensures { result ≡ is_init tree.now name }
{
    match name {
        Some(name) => text_of(tree, name) == "__init__",
        None => false,
    }
}

fn object_of(target: NodeId, name: Option<NameId>) -> Role
    ensures { result ≡ object_of target name }
{
    match name {
        Some(name) => Role::Object(target, name),
        None => Role::Read,
    }
}

fn read_by(tree: &Tree, target: &[Step], binder: Option<Step>) -> Role
    ensures { result ≡ read_by tree.now target.now binder }
{
    match binder {
        Some(_) => object_of(node_around(target), tree.name_of(node_around(target))),
        None => Role::Read,
    }
}

fn static_at(is_staticmethod: bool, way: &[Step]) -> Option<NodeId>
    ensures { result ≡ static_at is_staticmethod way.now }
{
    if is_staticmethod {
        decorated(way)
    } else {
        None
    }
}

fn static_or(decorated: Option<NodeId>, other: Role) -> Role
    ensures { result ≡ static_or decorated other }
{
    match decorated {
        Some(statement) => Role::Static(statement),
        None => other,
    }
}

// What a name that isn't bound here is there for.
fn read_role(tree: &Tree, is_staticmethod: bool, way: &[Step]) -> Role
    ensures { result ≡ read_role tree.now is_staticmethod way.now }
{
    match kind_around(way) {
        NodeKind::Global => Role::Global,
        NodeKind::Nonlocal => Role::Nonlocal,
        _ => {
            let target = target_way(way);
            let read = read_by(tree, target, target_binder(target));
            static_or(static_at(is_staticmethod, way), read)
        }
    }
}

fn role_of(tree: &Tree, is_staticmethod: bool, way: &[Step]) -> Role
    ensures { result ≡ role_of tree.now is_staticmethod way.now }
{
    match binder(way) {
        Some(_) if is_first_parameter(way) => {
            Role::FirstParameter(is_init(tree, def_name(tree, way)))
        }
        Some(_) => Role::Binding,
        None => read_role(tree, is_staticmethod, way),
    }
}

// What binds the name, or the target whose `p` it is.
fn some_binder(way: &[Step]) -> Option<Step>
    ensures { result ≡ some_binder way.now (binder way.now) }
{
    match binder(way) {
        Some(step) => Some(step),
        None => target_binder(target_way(way)),
    }
}

fn effect_by(binder: Option<Step>) -> NameRole
    ensures { result ≡ effect_by binder }
{
    match binder {
        Some(step) => bound_as(step.kind, step.parts),
        None => NameRole::Read,
    }
}

fn annotation_at(tree: &Tree, star: Star, id: Option<NodeId>) -> Option<Annotation>
    ensures { result ≡ annotation_of tree.now star id }
{
    let node = id?;
    let from = tree.span(node).from;
    Some(Annotation { node, from, star })
}

fn part_at(tree: &Tree, id: NodeId, place: usize) -> Option<NodeId>
    ensures { result ≡ slice_get (parts_at tree.now.nodes id) place }
{
    tree.parts(id).get(place).copied()
}

fn annotation_by(tree: &Tree, binder: Option<Step>) -> Option<Annotation>
    ensures { result ≡ annotation_by tree.now binder }
{
    let step = binder?;
    if is_annotated(step.kind, step.parts) {
        annotation_at(tree, star_of(step.kind), part_at(tree, step.around, 1))
    } else {
        None
    }
}

// The scopes around, for a binding from the one that it binds in outward.
fn scopes_for(alloc: Global, way: &[Step]) -> Result<List<Scope>, NoMemory>
    ensures { IfOk result (λ scopes. scopes ≡ scopes_for way.now) }
{
    let scopes = scopes_along(alloc, way)?.into_list();
    if is_named(binder(way)) {
        match Vec::from_slice(alloc, from_taker(scopes.as_slice())) {
            Ok(taker) => Ok(List::from_vec(taker)),
            Err(_) => Err(NoMemory),
        }
    } else {
        Ok(scopes)
    }
}

fn is_among(names: &[&str], text: &str) -> bool
    ensures { result ≡ list_any (bytes_eq text.now) (map (λ n. n.now) names.now) }
{
    for name in names {
        if text == *name {
            return true;
        }
    }
    false
}

pub(crate) fn is_builtin(text: &str) -> bool
    ensures { result ≡ is_builtin text.now }
{
    is_among(&BUILTIN_NAMES, text)
}

fn is_staticmethod(text: &str) -> bool
    ensures { result ≡ bytes_eq text.now (codes "staticmethod") }
{
    text == "staticmethod"
}

fn is_underscore(text: &str) -> bool
    ensures { result ≡ bytes_eq text.now (codes "_") }
{
    text == "_"
}

fn occurrence_on(
    alloc: Global,
    tree: &Tree,
    id: NodeId,
    name: NameId,
    way: &[Step],
) -> Result<Occurrence, NoMemory>
    ensures { IfOk result (λ o. o ≡ occurrence_on tree.now id name way.now) }
{
    let text = text_of(tree, name);
    let binder = some_binder(way);
    Ok(Occurrence {
        node: id,
        name,
        role: role_of(tree, is_staticmethod(text), way),
        scopes: scopes_for(alloc, way)?,
        effect: effect_by(binder),
        annotation: annotation_by(tree, binder),
    })
}

fn word_name(word: &Word) -> Option<NameId>
    ensures { result ≡ word_name word.now }
{
    match word {
        Word::Name(name) => Some(*name),
        _ => None,
    }
}

// The name that a leaf is.
fn leaf_name(tree: &Tree, id: NodeId) -> Option<NameId>
    ensures { result ≡ leaf_name (slice_get tree.now.nodes id.0) }
{
    if (id.0 as usize) >= tree.node_count() {
        return None;
    }
    let node = tree.node(id);
    if node.kind == NodeKind::Name {
        word_name(&node.word)
    } else {
        None
    }
}

// The occurrence of a name at a node from which this way leads out, `None` exactly where the name
// doesn't count.
fn occurrence_if(
    alloc: Global,
    tree: &Tree,
    id: NodeId,
    name: NameId,
    way: &[Step],
) -> Result<Option<Occurrence>, NoMemory>
    ensures { IfOk result (λ o. o ≡ occurrence_if tree.now id way.now (Some name)) }
{
    if !does_count(is_underscore(text_of(tree, name)), way) {
        return Ok(None);
    }
    let occurrence = occurrence_on(alloc, tree, id, name, way)?;
    Ok(Some(occurrence))
}

// The occurrence of a name at a node, `None` exactly where none stands there, by the steps outward
// from all nodes.
fn occurrence_at(
    alloc: Global,
    tree: &Tree,
    outward: &[Option<Step>],
    id: NodeId,
) -> Result<Option<Occurrence>, NoMemory>
    requires { outward.now ≡ steps_outward tree.now }
    ensures { IfOk result (λ o. o ≡ occurrence_at tree.now id) }
{
    let Some(name) = leaf_name(tree, id) else {
        return Ok(None);
    };
    let way = way_out(alloc, tree, outward, id)?;
    occurrence_if(alloc, tree, id, name, way.as_slice())
}

// Adds an item, where there is one.
fn push_some<T: Drop>(items: &mut List<T>, item: Option<T>) -> Result<(), NoMemory>
    ensures { OnOk result (items.new ≡ items.old ++ option_to_list item) }
{
    match item {
        Some(item) => items.push(item),
        None => Ok(()),
    }
}

fn role_if(occurrence: &Option<Occurrence>) -> Option<NameRole>
    ensures { result ≡ role_if occurrence.now }
{
    match occurrence {
        Some(occurrence) => Some(seen_as(occurrence.role, occurrence.effect)),
        None => None,
    }
}

/// All occurrences of names, by the numbers of their nodes, and the role of the name at each node.
#[derive(Drop)]
pub(crate) struct Found {
    pub(crate) all: List<Occurrence>,
    pub(crate) roles: List<Option<NameRole>>,
}

/// All occurrences of names, and the roles of nodes. `NoMemory` where they could not be stored.
pub(crate) fn occurrences(
    alloc: Global,
    tree: &Tree,
    outward: &[Option<Step>],
) -> Result<Found, NoMemory>
    requires { outward.now ≡ steps_outward tree.now }
    ensures all { IfOk result (λ found. found.all ≡ occurrences tree.now) }
    ensures roles { IfOk result (λ found. found.roles ≡ map (role_at tree.now) (node_ids tree.now)) }
    ensures room { IfOk result (λ found. length found.all < 33554432) }
    ensures below { IfOk result (λ found. AreBelow (length tree.now.nodes) found.all) }
{
    let mut all = List::new(alloc);
    let mut roles = List::new(alloc);
    for number in 0..tree.node_count() {
        let occurrence = occurrence_at(alloc, tree, outward, NodeId(number as u32))?;
        roles.push(role_if(&occurrence))?;
        push_some(&mut all, occurrence)?;
    }
    Ok(Found { all, roles })
}
