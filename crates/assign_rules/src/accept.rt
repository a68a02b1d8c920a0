//! Whether a type is accepted by another.
ghost use Rattle.std.specs.Prelude.{◌≡◌, ◌↔◌, IsTrue, IfOk};
ghost use Rattle.assign_rules.specs.Members.{table_of};
ghost use Rattle.assign_rules.specs.Accepts.{SameTest, no_test, Accepts};
ghost use Rattle.type_terms.specs.Asked.{Cancels};

use crate::asked::Asked;
use crate::class_goes::{ClassGoes, OrderAlone};
use crate::greatest::holds_first;
use crate::question::Question;
use crate::rules::Rules;
use class_rows::ClassRows;
use py_base::Stop;
use std::alloc::Global;
use type_terms::Type;
use type_terms::facts::Facts;
use type_terms::view::Types;

/// Whether each member of the source is accepted by the target, where an instance goes to a class also by a test.
///
/// A pair that is met again inside itself counts as accepted. `Cancelled` comes only where the count of seen raises of `types` rose in
/// this call, `Memory` where what was asked could not be stored.
pub fn accepts_by<F: Facts, T: Types, H: ClassGoes<T>>(
    alloc: Global,
    source: &Type,
    target: &Type,
    classes: &ClassRows,
    facts: &F,
    types: &mut T,
    by: &mut H,
) -> Result<bool, Stop>
    ensures value { IfOk result (λ r. IsTrue r ↔ Accepts (table_of classes.now (F.names facts.now) (F.facts facts.now) (T.assignment types.old)) (H.test by.old (T.assignment types.old)) source.now target.now) }
    ensures test { SameTest (H.test by.new) (H.test by.old) }
    ensures same { T.assignment types.new ≡ T.assignment types.old }
    ensures stays { T.stays types.old types.new }
    ensures cancels { Cancels (T.seen types.old) (T.seen types.new) result }
{
    let rules = Rules { classes, facts };
    let source = source.copy(alloc)?.into_slot();
    let target = target.copy(alloc)?.into_slot();
    let mut asked = Asked::new(alloc, Question::Accepted(source, target))?;
    asked.ask_all(alloc, &rules, types, by)?;
    Ok(holds_first(alloc, asked.clauses.as_slice())?)
}

/// Whether each member of the source is accepted by the target, by the order of classes alone.
///
/// A pair that is met again inside itself counts as accepted, so types that hold themselves have an answer. `Cancelled` comes only
/// where the count of seen raises of `types` rose in this call, `Memory` where what was asked could not be stored.
pub fn accepts<F: Facts, T: Types>(
    alloc: Global,
    source: &Type,
    target: &Type,
    classes: &ClassRows,
    facts: &F,
    types: &mut T,
) -> Result<bool, Stop>
    ensures value { IfOk result (λ r. IsTrue r ↔ Accepts (table_of classes.now (F.names facts.now) (F.facts facts.now) (T.assignment types.old)) no_test source.now target.now) }
    ensures same { T.assignment types.new ≡ T.assignment types.old }
    ensures stays { T.stays types.old types.new }
    ensures cancels { Cancels (T.seen types.old) (T.seen types.new) result }
{
    accepts_by(
        alloc,
        source,
        target,
        classes,
        facts,
        types,
        &mut OrderAlone,
    )
}
