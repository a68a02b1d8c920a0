//! Patterns of `case`: which test each is of the subject, and what the names in it bind.
ghost use Rattle.std.specs.Prelude.{◌≡◌, ◌++◌, map, true, false, position, Some, ◌==◌, IfOk, OnOk};
ghost use Rattle.py_base.specs.Nodes.{word_at};
ghost use Rattle.node_shapes.specs.Expressions.{expression};
ghost use Rattle.node_shapes.specs.Patterns.{pattern};
ghost use Rattle.narrow_rules.specs.Patterns as spec;

use node_shapes::{Expression, Literal as Written, Pattern, entries_of, expression_at, pattern_at};
use py_base::{ClassId, List, NameId, NoMemory, NodeId, Tree, Word};
use sqlite_items::Items;
use std::alloc::Global;
use type_terms::facts::Names;
use type_terms::{Atom, Literal, Test};

/// How high the tree of a line is at most, so that what goes down to this depth sees all of it.
pub const TREE_HEIGHT: u32 = 256;

/// What a captured name binds.
#[derive(Clone, Copy, PartialEq, Eq)]
pub enum Capture {
    /// The subject of the `match`.
    Subject,
    /// A part of the subject, of which nothing is known.
    Unknown,
}

/// A pattern as a test of the subject, with the names that it captures.
#[derive(Drop)]
pub struct CaseTest {
    pub test: Test,
    /// The name nodes in the order of evaluation, each with what it binds.
    pub captures: List<(NodeId, Capture)>,
}

/// The test against a value that a type can have as a member.
fn equals(value: Literal) -> Test
    ensures { result ≡ spec.equals (Some value) }
{
    Test::EqualsLit(Atom::Lit(value))
}

/// The test against strings or bytes, as far as their value is known.
fn text_test(alloc: Global, word: &Word) -> Result<Test, NoMemory>
    ensures { IfOk result (λ test. test ≡ spec.equals (spec.text_value word.now)) }
{
    match word {
        Word::Chars(text) => Ok(equals(Literal::Str(text.copy(alloc)?))),
        Word::Bytes(bytes) => Ok(equals(Literal::Bytes(bytes.copy(alloc)?))),
        _ => Ok(Test::KeepBoth),
    }
}

/// The test against a literal.
fn literal_test(alloc: Global, form: Expression, word: &Word) -> Result<Test, NoMemory>
    ensures { IfOk result (λ test. test ≡ spec.literal_test form word.now) }
{
    match form {
        Expression::Literal(Written::None) => Ok(Test::IsNone),
        Expression::Literal(Written::Bool(truth)) => Ok(Test::IsLit(Atom::Lit(Literal::Bool(
            truth,
        )))),
        Expression::Literal(Written::Int(number)) => Ok(equals(Literal::Int(number))),
        Expression::Literal(Written::Str | Written::Bytes) => text_test(alloc, word),
        _ => Ok(Test::KeepBoth),
    }
}

/// The place of a name among others.
fn place_of(name: NameId, names: &[NameId]) -> Option<usize>
    ensures { result ≡ position (λ (member : NameId). member.0 == name.0) names.now }
{
    names.iter().position(|member| *member == name)
}

/// The test against what a dotted name names.
fn value_test<N: Names>(node: NodeId, names: &N) -> Test
    ensures { result ≡ spec.equals (spec.member_value (N.names names.now) ((N.names names.now).member_at node)) }
{
    match names.member_at(node) {
        Some((class, name)) => match place_of(name, names.enum_members(class)) {
            Some(place) => equals(Literal::Member(class, place)),
            None => Test::KeepBoth,
        },
        None => Test::KeepBoth,
    }
}

/// The test of a class, with or without patterns in its brackets.
fn class_test(alloc: Global, class: Option<ClassId>, parts: &[NodeId]) -> Result<Test, NoMemory>
    ensures { IfOk result (λ test. test ≡ spec.class_test class parts.now) }
{
    match (class, parts) {
        (None, _) => Ok(Test::KeepBoth),
        (Some(class), []) => {
            let mut listed = List::new(alloc);
            listed.push(class)?;
            Ok(Test::Instance(listed))
        }
        (Some(class), _) => Ok(Test::WithParts(class)),
    }
}

/// Which tests patterns are, down to a depth.
#[cycle(patterns)]
fn tests_of<N: Names>(
    alloc: Global,
    tree: &Tree,
    patterns: &[NodeId],
    left: u32,
    names: &N,
) -> Result<Items<Test>, NoMemory>
    ensures { IfOk result (λ tests. tests ≡ map (spec.test_within left (N.names names.now) tree.now) patterns.now) }
{
    let mut tests = Items::new(alloc);
    for pattern in patterns {
        let test = test_of(alloc, tree, *pattern, left, names)?;
        tests.push(test)?;
    }
    Ok(tests)
}

/// Which test a pattern is, given its form, and those in it down to a depth.
#[cycle(patterns)]
fn form_test<N: Names>(
    alloc: Global,
    tree: &Tree,
    node: NodeId,
    form: Pattern,
    left: u32,
    names: &N,
) -> Result<Test, NoMemory>
    ensures { IfOk result (λ test. test ≡ spec.pattern_test (spec.test_within left (N.names names.now) tree.now) (N.names names.now) tree.now.nodes node form) }
{
    match form {
        Pattern::Capture => Ok(Test::KeepTrue),
        Pattern::Wildcard => Ok(Test::KeepTrue),
        Pattern::Literal => literal_test(alloc, expression_at(tree, node), tree.word(node)),
        Pattern::Value => Ok(value_test(node, names)),
        Pattern::Class(class) => class_test(alloc, names.class_at(class), entries_of(tree, node)),
        Pattern::Group(inner) => test_of(alloc, tree, inner, left, names),
        Pattern::As(inner, _) => test_of(alloc, tree, inner, left, names),
        Pattern::Or => Ok(Test::Either(tests_of(
            alloc,
            tree,
            entries_of(tree, node),
            left,
            names,
        )?)),
        _ => Ok(Test::KeepBoth),
    }
}

/// Which test a pattern is, down to a depth.
#[cycle(patterns)]
fn test_of<N: Names>(
    alloc: Global,
    tree: &Tree,
    node: NodeId,
    left: u32,
    names: &N,
) -> Result<Test, NoMemory>
    ensures { IfOk result (λ test. test ≡ spec.test_within left (N.names names.now) tree.now node) }
{
    if left == 0 {
        return Ok(Test::KeepBoth);
    }
    form_test(alloc, tree, node, pattern_at(tree, node), left - 1, names)
}

/// What a name at the top binds, or one further in.
fn bound(top: bool) -> Capture
    ensures { result ≡ spec.bound top }
{
    if top {
        Capture::Subject
    } else {
        Capture::Unknown
    }
}

/// Adds what patterns within another one capture, down to a depth.
#[cycle(captures)]
fn add_each(
    tree: &Tree,
    patterns: &[NodeId],
    left: u32,
    list: &mut List<(NodeId, Capture)>,
) -> Result<(), NoMemory>
    ensures { OnOk result (list.new ≡ list.old ++ spec.gather (spec.captures_within left tree.now false) patterns.now) }
{
    for pattern in patterns {
        add_captures(tree, *pattern, false, left, list)?;
    }
    Ok(())
}

/// Adds what a pattern of this form captures, and those in it down to a depth.
#[cycle(captures)]
fn add_by_form(
    tree: &Tree,
    node: NodeId,
    form: Pattern,
    top: bool,
    left: u32,
    list: &mut List<(NodeId, Capture)>,
) -> Result<(), NoMemory>
    ensures { OnOk result (list.new ≡ list.old ++ spec.pattern_captures (spec.captures_within left tree.now) tree.now.nodes top node form) }
{
    match form {
        Pattern::Capture => list.push((node, bound(top))),
        Pattern::Group(inner) => add_captures(tree, inner, top, left, list),
        Pattern::As(inner, name) => {
            add_captures(tree, inner, top, left, list)?;
            add_captures(tree, name, top, left, list)
        }
        Pattern::Star(name) => add_captures(tree, name, false, left, list),
        Pattern::DoubleStar(name) => add_captures(tree, name, false, left, list),
        Pattern::Item(_, inner) => add_captures(tree, inner, false, left, list),
        Pattern::Keyword(_, inner) => add_captures(tree, inner, false, left, list),
        Pattern::Sequence => add_each(tree, entries_of(tree, node), left, list),
        Pattern::Mapping => add_each(tree, entries_of(tree, node), left, list),
        Pattern::Class(_) => add_each(tree, entries_of(tree, node), left, list),
        Pattern::Or => add_each(tree, entries_of(tree, node), left, list),
        _ => Ok(()),
    }
}

/// Adds what a pattern captures, at the top or not, in the order of evaluation, down to a depth.
#[cycle(captures)]
fn add_captures(
    tree: &Tree,
    node: NodeId,
    top: bool,
    left: u32,
    list: &mut List<(NodeId, Capture)>,
) -> Result<(), NoMemory>
    ensures { OnOk result (list.new ≡ list.old ++ spec.captures_within left tree.now top node) }
{
    if left == 0 {
        return Ok(());
    }
    add_by_form(tree, node, pattern_at(tree, node), top, left - 1, list)
}

/// Which test the pattern of a `case` is of the subject, and what the names in it bind (Python 3.12
/// language reference, 8.6.4).
///
/// A name at the top, also in a group or behind `as`, binds the subject; one in a part of another
/// pattern, and one between `|`, binds what nothing is known of. The tree of a line is at most 256
/// high, and what stood deeper would keep all and capture nothing. `NoMemory` where the test or the
/// names could not be stored.
pub fn lower<N: Names>(
    alloc: Global,
    tree: &Tree,
    pattern: NodeId,
    names: &N,
) -> Result<CaseTest, NoMemory>
    ensures test { IfOk result (λ lowered. lowered.test ≡ spec.test_within 256 (N.names names.now) tree.now pattern) }
    ensures captures { IfOk result (λ lowered. lowered.captures ≡ spec.captures_within 256 tree.now true pattern) }
{
    let mut captures = List::new(alloc);
    add_captures(tree, pattern, true, TREE_HEIGHT, &mut captures)?;
    let test = test_of(alloc, tree, pattern, TREE_HEIGHT, names)?;
    Ok(CaseTest { test, captures })
}
