//! Lists of diagnostics as they are published.
ghost use Rattle.std.specs.Prelude.{◌≡◌, List, IfOk};
ghost use Rattle.py_base.specs.declared.diag.Diag.{Diag};
ghost use Rattle.diagnostics.specs.SortedList.{IsSortedList};

use py_base::laws::equal_diags_are_the_same;
use py_base::{Diag, List, NoMemory};

/// The diagnostics of a list by place, then by the name of the rule, then by text, each once. `NoMemory`
/// where they could not be sorted.
pub fn sorted(found: List<Diag>) -> Result<List<Diag>, NoMemory>
    ensures { IfOk result (IsSortedList found) }
{
    equal_diags_are_the_same();
    let mut diags = found.into_vec();
    diags.sort()?;
    diags.dedup();
    Ok(List::from_vec(diags))
}

/// What was found has just one sorted list. This call does nothing; its contract is the law.
pub fn one_sorted_list()
    ensures { (found one other : List Diag) → IsSortedList found one → IsSortedList found other → one ≡ other }
{}
