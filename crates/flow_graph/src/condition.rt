//! The forms of tests, and what nodes test by them.
ghost use Rattle.std.specs.Prelude.{◌≡◌, slice_get};
ghost use Rattle.py_base.specs.declared.ids.NodeId.{NodeId};
ghost use Rattle.node_references.specs.Numbers.{flat};
ghost use Rattle.flow_graph.specs.Tests.{of_test, tested_by, mirrored_by};
ghost use Rattle.flow_graph.specs.Numbering.{tested_entry};

use node_references::at;
use py_base::{NodeId, RefId};

/// The form of a test on a reference x, with the nodes beside x that say what x is tested for. `is not`, `!=` and
/// `not in` have the forms of `is`, `==` and `in`.
#[derive(Clone, Copy)]
pub enum TestForm {
    /// `x`, also where it is given its value by `:=`.
    Truth,
    /// `f(x)`, as `callable(x)`: f.
    Call(NodeId),
    /// `isinstance(x, C)` or `issubclass(x, C)`: the function and C.
    CallOf(NodeId, NodeId),
    /// `type(x) is T` or `type(x) == T`: T.
    Type(NodeId),
    /// `x is L`: L.
    Is(NodeId),
    /// `x == L`, written so or the other way: L.
    Equal(NodeId),
    /// `x in L`: L.
    In(NodeId),
    /// A case, on the subject of its `match`.
    Case,
}

/// A test in the text: the node in place of x, and the form.
#[derive(Clone, Copy)]
pub struct Test {
    pub place: NodeId,
    pub form: TestForm,
}

/// The tests that a node has the form of: as written, and as `L == x` written the other way.
#[derive(Clone, Copy)]
pub struct Tests {
    pub written: Option<Test>,
    pub mirrored: Option<Test>,
}

/// What a node tests, and by which form: as written, or where that tests no reference as written the other way; and the
/// latter, where both test one.
#[derive(Clone, Copy)]
pub struct Tested {
    pub condition: Option<(RefId, TestForm)>,
    pub mirrored: Option<(RefId, TestForm)>,
}

// A test of what its place stands for, where that is a reference.
fn of_test(table: &[Option<RefId>], test: Option<Test>) -> Option<(RefId, TestForm)>
    ensures { result ≡ of_test (λ (n : NodeId). flat (slice_get table.now n.0)) test }
{
    let test = test?;
    let id = at(table, test.place.0)?;
    Some((id, test.form))
}

fn tested_by(table: &[Option<RefId>], tests: Tests) -> Option<(RefId, TestForm)>
    ensures { result ≡ tested_by (λ (n : NodeId). flat (slice_get table.now n.0)) tests }
{
    match of_test(table, tests.written) {
        None => of_test(table, tests.mirrored),
        Some(condition) => Some(condition),
    }
}

fn mirrored_by(table: &[Option<RefId>], tests: Tests) -> Option<(RefId, TestForm)>
    ensures { result ≡ mirrored_by (λ (n : NodeId). flat (slice_get table.now n.0)) tests }
{
    match of_test(table, tests.written) {
        None => None,
        Some(_) => of_test(table, tests.mirrored),
    }
}

/// What tests test, by the numbers of the references of nodes.
pub fn resolved(table: &[Option<RefId>], tests: Tests) -> Tested
    ensures { result ≡ tested_entry table.now tests }
{
    Tested {
        condition: tested_by(table, tests),
        mirrored: mirrored_by(table, tests),
    }
}
