//! What is asked of the body of a function or a class.
ghost use Rattle.std.specs.Prelude.{◌≡◌, ◌<◌, [], IfOk, OnOk, length, map, fold, filter_map};
ghost use Rattle.std.specs.Option.{option_to_list};
ghost use Rattle.std.specs.List.{flat_map, list_all};
ghost use Rattle.py_base.specs.Nodes.{kind_at};
ghost use Rattle.py_base.specs.Tree.{name_at};
ghost use Rattle.node_shapes.specs.Bodies.{has_yield, is_stub, is_stub_at, is_only_stubs, only_name, begins_low, begins_twice_low, ends_low, is_member_name, member_name, with_once, enum_members};
ghost use Rattle.node_shapes.specs.Items.{first_ids};
ghost use Rattle.node_shapes.specs.Kinds.{is_yield};
ghost use Rattle.node_shapes.specs.Statements.{flat, statements_of};
ghost use Rattle.node_shapes.specs.Tables.{no_mark, yielding, MarksNode};

use crate::definitions::class_at;
use crate::statements::{assigned_targets, side_by_side, statement_parts};
use crate::steps::Outward;
use crate::targets::{Target, target_at};
use indexmap::IndexSet;
use py_base::{List, NameId, NoMemory, NodeId, NodeKind, Tree};
use std::alloc::Global;

/// `_`, as a byte.
const LOW_LINE: u8 = 95;

fn is_yield(kind: NodeKind) -> bool
    ensures { result ≡ is_yield kind }
{
    matches!(kind, NodeKind::Yield | NodeKind::YieldFrom)
}

// The function that a node makes a generator, if it is a `yield`.
fn yielding(outward: &Outward, node: NodeId) -> Option<NodeId>
    ensures { result ≡ yielding outward.now.nodes node }
{
    if is_yield(outward.tree().kind(node)) {
        outward.function_around(node)
    } else {
        None
    }
}

// As many marks as are told, none of them set.
fn no_marks(alloc: Global, count: usize) -> Result<List<bool>, NoMemory>
    requires { count < 33554432 }
    ensures { IfOk result (λ marks. marks ≡ map no_mark (first_ids count)) }
{
    let mut marks = List::new(alloc);
    for _ in 0..count {
        marks.push(false)?;
    }
    Ok(marks)
}

fn mark(marks: &mut List<bool>, node: Option<NodeId>)
    ensures marks { MarksNode node marks.old marks.new }
    ensures count { length marks.new ≡ length marks.old }
{
    let Some(node) = node else { return };
    let at = node.0 as usize;
    if at < marks.len() {
        marks.set(at, true);
    }
}

/// For each node whether it is a def or a lambda whose body has a `yield`, in its classes and comprehensions too and
/// in no function within. `NoMemory` where the marks could not be stored.
pub fn yields(alloc: Global, outward: &Outward) -> Result<List<bool>, NoMemory>
    ensures { IfOk result (λ marks. marks ≡ map (has_yield outward.now.nodes) (first_ids (length outward.now.nodes))) }
{
    let count = outward.tree().node_count();
    let mut marks = no_marks(alloc, count)?;
    for number in 0..count {
        mark(&mut marks, yielding(outward, NodeId(number as u32)));
    }
    Ok(marks)
}

fn is_stub(tree: &Tree, statement: NodeId) -> bool
    ensures { result ≡ is_stub_at tree.now.nodes statement }
{
    matches!(
        tree.kind(statement),
        NodeKind::Ellipsis | NodeKind::Strings | NodeKind::BytesStrings | NodeKind::Fault
    )
}

fn is_stub_line(tree: &Tree, line: NodeId) -> bool
    ensures { result ≡ list_all (is_stub_at tree.now.nodes) (flat tree.now.nodes line) }
{
    side_by_side(tree, &line)
        .iter()
        .all(|statement| is_stub(tree, *statement))
}

fn are_stub_lines(tree: &Tree, lines: &[NodeId]) -> bool
    ensures { result ≡ list_all (λ line. list_all (is_stub_at tree.now.nodes) (flat tree.now.nodes line)) lines.now }
{
    lines.iter().all(|line| is_stub_line(tree, *line))
}

/// Whether a body is only `...` and strings; error lines are passed over.
pub fn is_only_stubs(tree: &Tree, body: NodeId) -> bool
    ensures { result ≡ is_only_stubs tree.now.nodes body }
{
    are_stub_lines(tree, statement_parts(tree, body))
}

// The name that is the only target.
fn only_name(tree: &Tree, targets: &[NodeId]) -> Option<NameId>
    ensures { result ≡ only_name tree.now.nodes targets.now }
{
    let [target] = targets else { return None };
    match target_at(tree, *target) {
        Target::Name(name) => Some(name),
        _ => None,
    }
}

// The text of a name; empty where the tree has no such name.
fn name_text(tree: &Tree, name: NameId) -> &str
    ensures { result.now ≡ name_at tree.now.names name.0 }
{
    if (name.0 as usize) < tree.name_count() {
        tree.name(name)
    } else {
        ""
    }
}

fn does_begin_low(text: &[u8]) -> bool
    ensures { result ≡ begins_low text.now }
{
    match text {
        [] => false,
        [first, ..] => *first == LOW_LINE,
    }
}

fn does_begin_twice_low(text: &[u8]) -> bool
    ensures { result ≡ begins_twice_low text.now }
{
    match text {
        [] => false,
        [first, rest @ ..] => *first == LOW_LINE && does_begin_low(rest),
    }
}

fn does_end_low(text: &[u8]) -> bool
    ensures { result ≡ ends_low text.now }
{
    let mut is_low = false;
    for byte in text {
        is_low = *byte == LOW_LINE;
    }
    is_low
}

fn is_member_name(text: &[u8]) -> bool
    ensures { result ≡ is_member_name text.now }
{
    !does_begin_twice_low(text) && !(does_begin_low(text) && does_end_low(text))
}

// The name that a line makes a member.
fn member_name(tree: &Tree, line: NodeId) -> Option<NameId>
    ensures { result ≡ member_name tree.now line }
{
    let name = only_name(tree, assigned_targets(tree, line))?;
    if is_member_name(name_text(tree, name).as_bytes()) {
        Some(name)
    } else {
        None
    }
}

fn add_member(members: &mut IndexSet<NameId>, name: Option<NameId>) -> Result<(), NoMemory>
    ensures { OnOk result (members.new.keys ≡ fold with_once members.old.keys (option_to_list name)) }
{
    if let Some(name) = name {
        members.insert(name)?;
    }
    Ok(())
}

fn add_members(
    tree: &Tree,
    lines: &[NodeId],
    members: &mut IndexSet<NameId>,
) -> Result<(), NoMemory>
    ensures { OnOk result (members.new.keys ≡ fold with_once members.old.keys (filter_map (member_name tree.now) lines.now)) }
{
    for line in lines {
        add_member(members, member_name(tree, *line))?;
    }
    Ok(())
}

// The names of members that stand in a body.
fn body_members(alloc: Global, tree: &Tree, body: NodeId) -> Result<IndexSet<NameId>, NoMemory>
    ensures { IfOk result (λ members. members.keys ≡ fold with_once [] (filter_map (member_name tree.now) (statements_of tree.now.nodes body))) }
{
    let mut members = IndexSet::new(alloc);
    let lines = statement_parts(tree, body);
    for line in lines {
        add_members(tree, side_by_side(tree, line), &mut members)?;
    }
    Ok(members)
}

fn listed(alloc: Global, members: &IndexSet<NameId>) -> Result<List<NameId>, NoMemory>
    ensures { IfOk result (λ list. list ≡ members.now.keys) }
{
    let names = Vec::from_slice(alloc, members.as_slice())?;
    Ok(List::from_vec(names))
}

/// The names of the members of a class statement that is an enum: those of plain lines directly in its body, each
/// once, in the order of the text; none of another node. Whether the class is an enum isn't asked. `NoMemory` where
/// the list could not be stored.
pub fn enum_members(alloc: Global, tree: &Tree, statement: NodeId) -> Result<List<NameId>, NoMemory>
    ensures { IfOk result (λ members. members ≡ enum_members tree.now statement) }
{
    match class_at(tree, statement) {
        Some(class) => listed(alloc, &body_members(alloc, tree, class.body)?),
        None => Ok(List::new(alloc)),
    }
}
