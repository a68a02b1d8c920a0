//! Lists of names: whether no name stands twice, and whether two lists have the same names, each by a
//! set. The time grows with the names times the logarithm of their number.
ghost use Rattle.std.specs.Prelude.{◌≡◌, ◌||◌, ℕ, List, bytes_eq, not, IfOk, OnOk};
ghost use Rattle.std.specs.List.{list_all};
ghost use Rattle.py_blocks.specs.Facts.{among, are_distinct, all_among, are_alike};
ghost use Rattle.py_blocks.specs.NameLists.{has_text};

use py_base::{NoMemory, Text};
use std::alloc::Global;
use std::collections::BTreeSet;

/// Names as a set.
type Names<'a> = BTreeSet<&'a str>;

// Adds a name, and gives whether it was not there before.
fn add_name<'a>(set: &mut Names<'a>, name: &'a str) -> Result<bool, NoMemory>
    ensures told { IfOk result (λ added. added ≡ not (has_text set.old name.now)) }
    ensures kept { OnOk result ((n : List ℕ) → has_text set.new n ≡ (has_text set.old n || bytes_eq n name.now)) }
{
    let added = set.insert(name)?;
    Ok(added)
}

fn set_of(alloc: Global, names: &[Text]) -> Result<Names, NoMemory>
    ensures { IfOk result (λ set. (n : List ℕ) → has_text set n ≡ among n names.now) }
{
    let mut set = BTreeSet::new(alloc);
    for name in names {
        add_name(&mut set, name.as_str())?;
    }
    Ok(set)
}

fn has_name(set: &Names, name: &Text) -> bool
    ensures { result ≡ has_text set.now name.now }
{
    set.contains(name.as_str())
}

fn has_all(set: &Names, names: &[Text]) -> bool
    ensures { result ≡ list_all (has_text set.now) names.now }
{
    names.iter().all(|name| has_name(set, name))
}

fn are_all_among(alloc: Global, names: &[Text], others: &[Text]) -> Result<bool, NoMemory>
    ensures { IfOk result (λ among. among ≡ all_among names.now others.now) }
{
    let set = set_of(alloc, others)?;
    Ok(has_all(&set, names))
}

/// Whether each name stands once. `NoMemory` where a set of them could not be stored.
pub fn are_distinct(alloc: Global, names: &[Text]) -> Result<bool, NoMemory>
    ensures { IfOk result (λ distinct. distinct ≡ are_distinct names.now) }
{
    let mut before = BTreeSet::new(alloc);
    for name in names {
        let added = add_name(&mut before, name.as_str())?;
        if !added {
            return Ok(false);
        }
    }
    Ok(true)
}

/// Whether two lists have the same names, in whatever order. `NoMemory` where sets of them could not
/// be stored.
pub fn are_alike(alloc: Global, names: &[Text], others: &[Text]) -> Result<bool, NoMemory>
    ensures { IfOk result (λ alike. alike ≡ are_alike names.now others.now) }
{
    let known = are_all_among(alloc, names, others)?;
    let complete = are_all_among(alloc, others, names)?;
    Ok(known && complete)
}
