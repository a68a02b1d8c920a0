//! Which tests a node has the form of.
ghost use Rattle.std.specs.Prelude.{◌≡◌, slice_get};
ghost use Rattle.std.specs.List.{list_all};
ghost use Rattle.flow_graph.specs.Tests.{bared, seen, kind_seen, parts_seen, named_in, test, test_of, when, or_else, chain_within, is_chain, is_member_name, is_constant, is_singleton, first_is_integer, is_literal_by, is_literal_node, is_value, is_comma, is_entry, is_display_of, is_display, only_argument, is_class_entry, is_tuple_of_classes, are_classes, class_test, is_name_kind, is_text, is_spelled, is_called, is_class_test, call_test, type_argument_in, type_argument, type_test, identity_test, equality_test, membership_test, written, operator_tests, comparison_tests, place_test, case_test, testing, form_tests, node_tests};

use crate::condition::{Test, TestForm, Tests};
use flow_forms::TREE_HEIGHT;
use node_references::{Shape, name_of, shape_of};
use py_base::{NameId, Node, NodeId, NodeKind, Op, Tree, Word};

// What stands in brackets, down to a depth.
fn bared(tree: &Tree, node: NodeId, left: u32) -> NodeId
    ensures { result ≡ bared left tree.now.nodes node }
{
    if left == 0 {
        return node;
    }
    match shape_of(tree.kind(node), tree.parts(node)) {
        Shape::Group(part) => bared(tree, part, left - 1),
        _ => node,
    }
}

// What stands in brackets.
#[tactic(auto, unfolding(crate::specs::Tests::seen))]
fn seen(tree: &Tree, node: NodeId) -> NodeId
    ensures { result ≡ seen tree.now.nodes node }
{
    bared(tree, node, TREE_HEIGHT)
}

fn kind_seen(tree: &Tree, node: NodeId) -> NodeKind
    ensures { result ≡ kind_seen tree.now.nodes node }
{
    tree.kind(seen(tree, node))
}

fn parts_seen(tree: &Tree, node: NodeId) -> &[NodeId]
    ensures { result.now ≡ parts_seen tree.now.nodes node }
{
    tree.parts(seen(tree, node))
}

// The name of a named expression, and another node itself.
fn named_in(node: NodeId, kind: NodeKind, parts: &[NodeId]) -> NodeId
    ensures { result ≡ named_in node kind parts.now }
{
    match (kind, parts) {
        (NodeKind::Named, [name, ..]) => *name,
        _ => node,
    }
}

// A test of what stands in place of x.
fn test(tree: &Tree, form: TestForm, node: NodeId) -> Test
    ensures { result ≡ test tree.now.nodes form node }
{
    let node = seen(tree, node);
    Test {
        place: named_in(node, tree.kind(node), tree.parts(node)),
        form,
    }
}

// A test of what stands in place of x, if something does.
fn test_of(tree: &Tree, form: TestForm, node: Option<NodeId>) -> Option<Test>
    ensures { result ≡ test_of tree.now.nodes form node }
{
    match node {
        None => None,
        Some(node) => Some(test(tree, form, node)),
    }
}

fn or_else(one: Option<Test>, other: Option<Test>) -> Option<Test>
    ensures { result ≡ or_else one other }
{
    match one {
        None => other,
        Some(test) => Some(test),
    }
}

// The test, where something holds.
fn test_if(holds: bool, test: Option<Test>) -> Option<Test>
    ensures { result ≡ when holds test }
{
    if holds { test } else { None }
}

// Whether it is a name, or names by dots, down to a depth.
fn is_chain_within(tree: &Tree, node: NodeId, left: u32) -> bool
    ensures { result ≡ chain_within left tree.now.nodes node }
{
    if left == 0 {
        return false;
    }
    match shape_of(tree.kind(node), tree.parts(node)) {
        Shape::Name => true,
        Shape::Attribute(part) | Shape::Group(part) => is_chain_within(tree, part, left - 1),
        Shape::Match | Shape::Other => false,
    }
}

#[tactic(auto, unfolding(crate::specs::Tests::is_chain))]
fn is_chain(tree: &Tree, node: NodeId) -> bool
    ensures { result ≡ is_chain tree.now.nodes node }
{
    is_chain_within(tree, node, TREE_HEIGHT)
}

// Whether it is written as a member of an enum.
fn is_member_name(tree: &Tree, node: NodeId) -> bool
    ensures { result ≡ is_member_name tree.now.nodes node }
{
    matches!(kind_seen(tree, node), NodeKind::Attribute) && is_chain(tree, node)
}

fn is_constant(kind: NodeKind) -> bool
    ensures { result ≡ is_constant kind }
{
    matches!(
        kind,
        NodeKind::NoneValue | NodeKind::TrueValue | NodeKind::FalseValue
    )
}

// Whether x may be it by identity.
fn is_singleton(tree: &Tree, node: NodeId) -> bool
    ensures { result ≡ is_singleton tree.now.nodes node }
{
    is_constant(kind_seen(tree, node)) || is_member_name(tree, node)
}

fn is_first_an_integer(tree: &Tree, parts: &[NodeId]) -> bool
    ensures { result ≡ first_is_integer tree.now.nodes parts.now }
{
    match parts {
        [] => false,
        [part, ..] => matches!(tree.kind(*part), NodeKind::Int),
    }
}

fn is_literal_by(tree: &Tree, kind: NodeKind, word: &Word, parts: &[NodeId]) -> bool
    ensures { result ≡ is_literal_by tree.now.nodes kind word.now parts.now }
{
    match (kind, word) {
        (NodeKind::Int, _) => true,
        (NodeKind::Unary, Word::Op(Op::Minus)) => is_first_an_integer(tree, parts),
        (NodeKind::Strings, Word::Chars(_)) => true,
        (NodeKind::BytesStrings, Word::Bytes(_)) => true,
        _ => false,
    }
}

// Whether the node is a literal.
fn is_literal(tree: &Tree, node: NodeId) -> bool
    ensures { result ≡ is_literal_node tree.now.nodes (slice_get tree.now.nodes node.0) }
{
    match tree.get(node) {
        None => false,
        Some(node) => is_literal_by(tree, node.kind, &node.word, node.parts.as_slice()),
    }
}

// Whether x may be equal to it.
#[tactic(auto, unfolding(crate::specs::Tests::is_value))]
fn is_value(tree: &Tree, node: NodeId) -> bool
    ensures { result ≡ is_value tree.now.nodes node }
{
    is_singleton(tree, node) || is_literal(tree, seen(tree, node))
}

fn is_comma(kind: NodeKind) -> bool
    ensures { result ≡ is_comma kind }
{
    matches!(kind, NodeKind::LastComma)
}

fn is_entry(tree: &Tree, node: NodeId) -> bool
    ensures { result ≡ is_entry tree.now.nodes node }
{
    is_comma(tree.kind(node)) || is_value(tree, node)
}

fn are_entries(tree: &Tree, parts: &[NodeId]) -> bool
    ensures { result ≡ list_all (is_entry tree.now.nodes) parts.now }
{
    parts.iter().all(|part| is_entry(tree, *part))
}

fn is_display_of(tree: &Tree, kind: NodeKind, parts: &[NodeId]) -> bool
    ensures { result ≡ is_display_of tree.now.nodes kind parts.now }
{
    match (kind, parts) {
        (NodeKind::Round | NodeKind::Square, _) => are_entries(tree, parts),
        (NodeKind::Curly, [_, ..]) => are_entries(tree, parts),
        _ => false,
    }
}

// Whether x may be in it.
#[tactic(auto, unfolding(crate::specs::Tests::is_display))]
fn is_display(tree: &Tree, node: NodeId) -> bool
    ensures { result ≡ is_display tree.now.nodes node }
{
    is_display_of(tree, kind_seen(tree, node), parts_seen(tree, node))
}

// The node, where something holds.
fn when(holds: bool, node: Option<NodeId>) -> Option<NodeId>
    ensures { result ≡ when holds node }
{
    if holds { node } else { None }
}

// The one argument of a call, behind which a comma may stand.
fn only_argument(tree: &Tree, arguments: &[NodeId]) -> Option<NodeId>
    ensures { result ≡ only_argument tree.now.nodes arguments.now }
{
    match arguments {
        [argument] => Some(*argument),
        [argument, comma] => when(is_comma(tree.kind(*comma)), Some(*argument)),
        _ => None,
    }
}

fn is_class_entry(tree: &Tree, node: NodeId) -> bool
    ensures { result ≡ is_class_entry tree.now.nodes node }
{
    is_comma(tree.kind(node)) || is_chain(tree, node)
}

fn are_class_entries(tree: &Tree, parts: &[NodeId]) -> bool
    ensures { result ≡ list_all (is_class_entry tree.now.nodes) parts.now }
{
    parts.iter().all(|part| is_class_entry(tree, *part))
}

fn is_tuple_of_classes(tree: &Tree, kind: NodeKind, parts: &[NodeId]) -> bool
    ensures { result ≡ is_tuple_of_classes tree.now.nodes kind parts.now }
{
    match kind {
        NodeKind::Round => are_class_entries(tree, parts),
        _ => false,
    }
}

// Whether it is a class or a tuple of classes.
#[tactic(auto, unfolding(crate::specs::Tests::are_classes))]
fn are_classes(tree: &Tree, node: NodeId) -> bool
    ensures { result ≡ are_classes tree.now.nodes node }
{
    is_chain(tree, node) || is_tuple_of_classes(tree, kind_seen(tree, node), parts_seen(tree, node))
}

// The test of two arguments of which the second is classes.
fn class_test(tree: &Tree, callee: NodeId, arguments: &[NodeId]) -> Option<Test>
    ensures { result ≡ class_test tree.now.nodes callee arguments.now }
{
    match arguments {
        [argument, classes] => {
            let form = TestForm::CallOf(callee, *classes);
            test_if(
                are_classes(tree, *classes),
                Some(test(tree, form, *argument)),
            )
        }
        [argument, classes, comma] => {
            let form = TestForm::CallOf(callee, *classes);
            test_if(
                is_comma(tree.kind(*comma)) && are_classes(tree, *classes),
                Some(test(tree, form, *argument)),
            )
        }
        _ => None,
    }
}

fn is_text(tree: &Tree, text: &str, name: NameId) -> bool
    ensures { result ≡ is_text text.now (slice_get tree.now.names name.0) }
{
    if (name.0 as usize) < tree.name_count() {
        tree.name(name) == text
    } else {
        false
    }
}

fn is_spelled(tree: &Tree, text: &str, name: Option<NameId>) -> bool
    ensures { result ≡ is_spelled tree.now.names text.now name }
{
    match name {
        None => false,
        Some(name) => is_text(tree, text, name),
    }
}

fn is_a_name(tree: &Tree, node: NodeId) -> bool
    ensures { result ≡ is_name_kind (kind_seen tree.now.nodes node) }
{
    matches!(kind_seen(tree, node), NodeKind::Name)
}

// Whether the function that is called is a name, spelled so.
#[tactic(auto, unfolding(crate::specs::Tests::is_called))]
fn is_called(tree: &Tree, text: &str, callee: NodeId) -> bool
    ensures { result ≡ is_called tree.now text.now callee }
{
    is_a_name(tree, callee) && is_spelled(tree, text, name_of(tree, seen(tree, callee)))
}

fn is_class_test(tree: &Tree, callee: NodeId) -> bool
    ensures { result ≡ is_class_test tree.now callee }
{
    is_called(tree, "isinstance", callee) || is_called(tree, "issubclass", callee)
}

// The test that a call is.
fn call_test(tree: &Tree, parts: &[NodeId]) -> Option<Test>
    ensures { result ≡ call_test tree.now parts.now }
{
    match parts {
        [] => None,
        [callee, arguments @ ..] => {
            let only = test_of(
                tree,
                TestForm::Call(*callee),
                only_argument(tree, arguments),
            );
            let of_classes = class_test(tree, *callee, arguments);
            or_else(
                test_if(is_a_name(tree, *callee), only),
                test_if(is_class_test(tree, *callee), of_classes),
            )
        }
    }
}

fn type_argument_in(tree: &Tree, kind: NodeKind, parts: &[NodeId]) -> Option<NodeId>
    ensures { result ≡ type_argument_in tree.now kind parts.now }
{
    match (kind, parts) {
        (NodeKind::Call, [callee, arguments @ ..]) => when(
            is_called(tree, "type", *callee),
            only_argument(tree, arguments),
        ),
        _ => None,
    }
}

// The argument of `type(x)`.
#[tactic(auto, unfolding(crate::specs::Tests::type_argument))]
fn type_argument(tree: &Tree, node: NodeId) -> Option<NodeId>
    ensures { result ≡ type_argument tree.now node }
{
    type_argument_in(tree, kind_seen(tree, node), parts_seen(tree, node))
}

// `type(x) is T`.
fn type_test(tree: &Tree, one: NodeId, other: NodeId) -> Option<Test>
    ensures { result ≡ type_test tree.now one other }
{
    test_if(
        is_chain(tree, other),
        test_of(tree, TestForm::Type(other), type_argument(tree, one)),
    )
}

// `x is None`, `x is L`.
fn identity_test(tree: &Tree, one: NodeId, other: NodeId) -> Option<Test>
    ensures { result ≡ identity_test tree.now one other }
{
    let found = Some(test(tree, TestForm::Is(other), one));
    or_else(
        type_test(tree, one, other),
        test_if(is_singleton(tree, other), found),
    )
}

// `x == L`.
fn equality_test(tree: &Tree, one: NodeId, other: NodeId) -> Option<Test>
    ensures { result ≡ equality_test tree.now one other }
{
    let found = Some(test(tree, TestForm::Equal(other), one));
    test_if(is_value(tree, other), found)
}

// `x in` a display.
fn membership_test(tree: &Tree, one: NodeId, other: NodeId) -> Option<Test>
    ensures { result ≡ membership_test tree.now one other }
{
    let found = Some(test(tree, TestForm::In(other), one));
    test_if(is_display(tree, other), found)
}

// The form as written alone.
fn written(test: Option<Test>) -> Tests
    ensures { result ≡ written test }
{
    Tests {
        written: test,
        mirrored: None,
    }
}

fn operator_tests(tree: &Tree, op: Op, one: NodeId, other: NodeId) -> Tests
    ensures { result ≡ operator_tests tree.now op one other }
{
    match op {
        Op::Is | Op::IsNot => written(identity_test(tree, one, other)),
        Op::Equal | Op::NotEqual => Tests {
            written: or_else(type_test(tree, one, other), equality_test(tree, one, other)),
            mirrored: equality_test(tree, other, one),
        },
        Op::In | Op::NotIn => written(membership_test(tree, one, other)),
        _ => written(None),
    }
}

// The tests of a comparison.
fn comparison_tests(tree: &Tree, word: &Word, parts: &[NodeId]) -> Tests
    ensures { result ≡ comparison_tests tree.now word.now parts.now }
{
    match (word, parts) {
        (Word::Op(op), [one, other]) => operator_tests(tree, *op, *one, *other),
        _ => written(None),
    }
}

// A test of what a node stands for.
fn place_test(form: TestForm, node: NodeId) -> Test
    ensures { result ≡ place_test form node }
{
    Test { place: node, form }
}

fn case_test(subject: Option<NodeId>) -> Option<Test>
    ensures { result ≡ case_test subject }
{
    match subject {
        None => None,
        Some(subject) => Some(place_test(TestForm::Case, subject)),
    }
}

// The tests that a node has the form of, given whether it is read and the subject of its case.
fn form_tests(tree: &Tree, read: bool, subject: Option<NodeId>, id: NodeId, node: &Node) -> Tests
    ensures { result ≡ form_tests tree.now read subject id (testing node.now.kind) node.now.word node.now.parts }
{
    let parts = node.parts.as_slice();
    match node.kind {
        NodeKind::Name | NodeKind::Attribute => {
            written(test_if(read, Some(place_test(TestForm::Truth, id))))
        }
        NodeKind::Named => {
            let name = named_in(id, NodeKind::Named, parts);
            written(Some(place_test(TestForm::Truth, name)))
        }
        NodeKind::Comparison => comparison_tests(tree, &node.word, parts),
        NodeKind::Call => written(call_test(tree, parts)),
        NodeKind::CaseStatement => written(case_test(subject)),
        _ => written(None),
    }
}

/// The tests that a node has the form of, given whether it is read and the subject of its case.
pub(crate) fn node_tests(tree: &Tree, read: bool, subject: Option<NodeId>, id: NodeId) -> Tests
    ensures { result ≡ node_tests tree.now read subject id (slice_get tree.now.nodes id.0) }
{
    match tree.get(id) {
        None => written(None),
        Some(node) => form_tests(tree, read, subject, id, node),
    }
}
