//! The bases of a class.
ghost use Rattle.std.specs.Prelude.{◌≡◌, ◌↔◌, IfOk, IsTrue};
ghost use Rattle.std.specs.List.{list_any};
ghost use Rattle.class_rows.specs.Classes.{known, is_unknown, or_object, BasesAreEarlier};
ghost use Rattle.class_rows.specs.Waits.{AreBelow};

use crate::head::{Base, ClassHead};
use py_base::{Builtin, ClassId, List, NoMemory};
use std::alloc::Global;

/// The Known ones among the bases, in order. `NoMemory` where they could not be stored.
fn known_bases(alloc: Global, bases: &[Base]) -> Result<List<ClassId>, NoMemory>
    ensures { IfOk result (λ classes. classes ≡ known bases.now) }
{
    let mut classes = List::new(alloc);
    for base in bases {
        if let Base::Known(class) = base {
            classes.push(*class)?;
        }
    }
    Ok(classes)
}

/// The bases that count: the Known ones, and `object` where there is none. A class statement
/// without bases makes a class under `object`. `NoMemory` where they could not be stored.
pub(crate) fn bases_of(alloc: Global, bases: &[Base]) -> Result<List<ClassId>, NoMemory>
    ensures { IfOk result (λ classes. classes ≡ or_object (known bases.now)) }
{
    let mut classes = known_bases(alloc, bases)?;
    if classes.is_empty() {
        classes.push(Builtin::Object.id())?;
    }
    Ok(classes)
}

/// Whether one of the bases is Unknown.
pub(crate) fn has_unknown(bases: &[Base]) -> bool
    ensures { result ≡ list_any is_unknown bases.now }
{
    bases.iter().any(|base| matches!(base, Base::Unknown))
}

/// Whether the Known ones among the bases have numbers below the limit.
fn are_below(bases: &[Base], limit: usize) -> bool
    ensures { IsTrue result ↔ AreBelow limit (known bases.now) }
{
    for base in bases {
        if let Base::Known(class) = base {
            if class.0 as usize >= limit {
                return false;
            }
        }
    }
    true
}

/// Whether each Known base is a builtin class or that of an earlier head, as `ClassRows::build`
/// asks.
pub fn bases_are_earlier(heads: &[ClassHead]) -> bool
    ensures { IsTrue result ↔ BasesAreEarlier heads.now }
{
    for (place, head) in heads.iter().enumerate() {
        if !are_below(head.bases.as_slice(), Builtin::COUNT + place) {
            return false;
        }
    }
    true
}
