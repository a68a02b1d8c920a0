//! The edges of a tree, form by form.
ghost use Rattle.std.specs.Prelude.{◌≡◌, ℕ, ◌<◌, ◌^◌, [], ◌∷◌, ◌++◌, IfOk, OnOk, ◌↔◌, List, length, is_some};
ghost use Rattle.flow_rows.specs.declared.edge.Edge.{Edge};
ghost use Rattle.flow_rows.specs.Flow.{Has, row_of, row_at, run_of, run_at, end_point, IsEdgeOf};
ghost use Rattle.flow_rows.specs.Around.{targets};
ghost use Rattle.flow_rows.specs.Edges.{left, edges_around, graph_edges};

use crate::frame::{Frame, leave};
use crate::path::{end_of_path, nothing};
use crate::rows::{row_of, row_of_graph};
use crate::{Edge, Ends, Exit, Form, Mode, Point, Row};
use py_base::{List, NoMemory, NodeId};
use std::alloc::Global;

fn add_all(arrows: &[Edge], edges: &mut List<Edge>) -> Result<(), NoMemory>
    ensures { OnOk result (edges.new ≡ edges.old ++ arrows.now) }
{
    for arrow in arrows {
        edges.push(*arrow)?;
    }
    Ok(())
}

fn leave_all(exits: &[Exit], frame: &Frame, edges: &mut List<Edge>) -> Result<(), NoMemory>
    ensures { OnOk result (edges.new ≡ edges.old ++ left (targets frame.now) exits.now) }
{
    for exit in exits {
        leave(exit.channel, exit.from, exit.kind, frame, edges)?;
    }
    Ok(())
}

// The row of a node in a copy and a mode.
fn find_row(
    alloc: Global,
    forms: &[Form],
    ends: &[Ends],
    node: NodeId,
    copy: u32,
    mode: Mode,
) -> Result<Row, NoMemory>
    ensures { IfOk result (λ r. r ≡ row_at forms.now ends.now node copy mode) }
{
    if copy >= 16 {
        return Ok(nothing(alloc));
    }
    match (forms.get(node.0 as usize), mode) {
        (None, _) => Ok(nothing(alloc)),
        (Some(form), Mode::Body) => row_of_graph(alloc, ends, node, form),
        (Some(form), Mode::Value) => row_of(alloc, ends, node, form, copy, Mode::Value),
        (Some(form), Mode::Condition) => row_of(alloc, ends, node, form, copy, Mode::Condition),
    }
}

/// Adds the edges of a node under the routes around it. After `NoMemory` some of them may stand.
fn emit(
    alloc: Global,
    forms: &[Form],
    ends: &[Ends],
    node: NodeId,
    copy: u32,
    mode: Mode,
    frame: &Frame,
    edges: &mut List<Edge>,
) -> Result<(), NoMemory>
    ensures { OnOk result (edges.new ≡ edges.old ++ edges_around forms.now ends.now node copy mode (targets frame.now)) }
{
    let row = find_row(alloc, forms, ends, node, copy, mode)?;
    add_all(row.arrows.as_slice(), edges)?;
    leave_all(row.exits.as_slice(), frame, edges)?;
    for kid in row.kids.as_slice() {
        if kid.node.0 < node.0 {
            let inside = Frame::Inside(kid.route, &*frame);
            emit(
                alloc, forms, ends, kid.node, kid.copy, kid.mode, &inside, edges,
            )?;
        }
    }
    Ok(())
}

// Whether a node of this form has a graph: a module, a def or a lambda.
fn runs(form: &Form) -> bool
    ensures { result ≡ is_some (run_of form.now) }
{
    matches!(form, Form::Function(_) | Form::Module(_))
}

/// Whether a node has a graph: a module, a def or a lambda.
pub fn has_graph(forms: &[Form], root: NodeId) -> bool
    ensures { result ≡ is_some (run_at forms.now root) }
{
    match forms.get(root.0 as usize) {
        None => false,
        Some(form) => runs(form),
    }
}

/// The end of the graph of a node: the point behind its last statement or its expression, and where
/// nothing runs in it its start.
pub fn end_of_graph(forms: &[Form], ends: &[Ends], root: NodeId) -> Point
    ensures { result ≡ end_point forms.now ends.now root }
{
    let start = Point::start(root);
    match forms.get(root.0 as usize) {
        Some(Form::Function(function)) => end_of_path(ends, 0, start, function.run.as_slice()),
        Some(Form::Module(statements)) => end_of_path(ends, 0, start, statements.as_slice()),
        _ => start,
    }
}

/// The edges within the graph of a node, and none where it has no graph. `NoMemory` where they could not
/// be stored.
pub fn edges_of(
    alloc: Global,
    forms: &[Form],
    ends: &[Ends],
    root: NodeId,
) -> Result<List<Edge>, NoMemory>
    ensures list { IfOk result (λ edges. edges ≡ graph_edges forms.now ends.now root) }
    ensures exact { IfOk result (λ edges. (e : Edge) → Has edges e ↔ IsEdgeOf forms.now ends.now root e) }
{
    let mut edges = List::new(alloc);
    emit(
        alloc,
        forms,
        ends,
        root,
        0,
        Mode::Body,
        &Frame::Top,
        &mut edges,
    )?;
    Ok(edges)
}
