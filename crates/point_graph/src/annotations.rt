//! The forms in which nodes run, without the annotations in calls of `cast`.
ghost use Rattle.std.specs.Prelude.{◌≡◌, IfOk, OnOk, map, unwrap_or};
ghost use Rattle.flow_rows.specs.declared.form.Form.{Form};
ghost use Rattle.flow_forms.specs.Forms.{forms_of};
ghost use Rattle.point_graph.specs.Annotations.{is_plain, is_marked, without_annotation, run_forms};

use flow_rows::Form;
use py_base::{List, NoMemory, NodeId, NodeKind, Tree};
use std::alloc::Global;

// Whether a node is marked; one beyond the marks isn't.
fn is_marked(casts: &[bool], node: NodeId) -> bool
    ensures { result ≡ is_marked casts.now node }
{
    match casts.get(node.0 as usize) {
        None => false,
        Some(mark) => *mark,
    }
}

// Whether an argument of this kind stands without a star and without a keyword.
fn stands_plain(kind: NodeKind) -> bool
    ensures { result ≡ is_plain kind }
{
    !matches!(
        kind,
        NodeKind::Starred | NodeKind::DoubleStarred | NodeKind::Keyword
    )
}

// A call without the annotation; `None` where it has none.
fn call_without(
    alloc: Global,
    tree: &Tree,
    casts: &[bool],
    callee: NodeId,
    arguments: &[NodeId],
) -> Result<Option<Form>, NoMemory>
    ensures { IfOk result (λ changed. unwrap_or changed (Form.Call callee arguments.now) ≡ without_annotation tree.now.nodes casts.now (Form.Call callee arguments.now)) }
{
    match arguments {
        [] => Ok(None),
        [first, more @ ..] => {
            if is_marked(casts, callee) && stands_plain(tree.kind(*first)) {
                let rest = Vec::from_slice(alloc, more)?;
                Ok(Some(Form::Call(callee, List::from_vec(rest))))
            } else {
                Ok(None)
            }
        }
    }
}

// The form of a call of `cast` without the annotation; `None` where there is none.
fn changed(
    alloc: Global,
    tree: &Tree,
    casts: &[bool],
    form: &Form,
) -> Result<Option<Form>, NoMemory>
    ensures { IfOk result (λ changed. unwrap_or changed form.now ≡ without_annotation tree.now.nodes casts.now form.now) }
{
    match form {
        Form::Call(callee, arguments) => {
            call_without(alloc, tree, casts, *callee, arguments.as_slice())
        }
        _ => Ok(None),
    }
}

// Leaves the annotation out of a form.
fn leave_out(alloc: Global, tree: &Tree, casts: &[bool], form: &mut Form) -> Result<(), NoMemory>
    ensures { OnOk result (form.new ≡ without_annotation tree.now.nodes casts.now form.old) }
{
    match changed(alloc, tree, casts, form)? {
        None => Ok(()),
        Some(call) => {
            *form = call;
            Ok(())
        }
    }
}

// Leaves the annotations out of all forms.
fn leave_out_all(
    alloc: Global,
    tree: &Tree,
    casts: &[bool],
    forms: &mut [Form],
) -> Result<(), NoMemory>
    ensures { OnOk result (forms.new ≡ map (without_annotation tree.now.nodes casts.now) forms.old) }
{
    for form in forms.iter_mut() {
        leave_out(alloc, tree, casts, form)?;
    }
    Ok(())
}

/// The form in which each node of a tree runs, in the order of their numbers, by its forms; `casts` says for
/// each node whether it names `cast`, and one that it has no place for doesn't. `NoMemory` where they could not
/// be stored.
pub fn forms_that_run(
    alloc: Global,
    tree: &Tree,
    forms: List<Form>,
    casts: &[bool],
) -> Result<List<Form>, NoMemory>
    requires { forms ≡ forms_of tree.now }
    ensures { IfOk result (λ list. list ≡ run_forms tree.now casts.now) }
{
    let mut list = forms.into_vec();
    leave_out_all(alloc, tree, casts, list.as_mut_slice())?;
    Ok(List::from_vec(list))
}
