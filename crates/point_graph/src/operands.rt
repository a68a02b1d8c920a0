//! The operands that are evaluated first.
ghost use Rattle.std.specs.Prelude.{◌≡◌, ◌++◌, IfOk};
ghost use Rattle.point_graph.specs.Operands.{operand, operands_of};

use flow_rows::Form;
use py_base::{List, NoMemory, NodeId};
use std::alloc::Global;

fn first_operand(form: &Form) -> Option<NodeId>
    ensures { result ≡ operand form.now }
{
    match form {
        Form::And(first, _) => Some(*first),
        Form::Or(first, _) => Some(*first),
        Form::Not(part) => Some(*part),
        Form::Group(part) => Some(*part),
        Form::Conditional(choice) => Some(choice.test),
        _ => None,
    }
}

/// For each form the operand that is evaluated first, where it is one that has no point of its own under
/// a condition.
pub fn operands(alloc: Global, forms: &[Form]) -> Result<List<Option<NodeId>>, NoMemory>
    ensures { IfOk result (λ list. list ≡ operands_of forms.now) }
{
    let mut list = List::new(alloc);
    for form in forms {
        list.push(first_operand(form))?;
    }
    Ok(list)
}
