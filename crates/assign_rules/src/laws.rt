//! What follows of acceptance.
ghost use Rattle.assign_rules.specs.Members.{table_of};
ghost use Rattle.assign_rules.specs.Laws.{Reflexive, Monotone, EachAlone};

use crate::class_goes::ClassGoes;
use class_rows::ClassRows;
use type_terms::facts::Facts;
use type_terms::view::Types;

/// Each type is accepted by itself, marks in it too, which stand for no value.
pub fn reflexive<F: Facts, T: Types, H: ClassGoes<T>>(
    _classes: &ClassRows,
    _facts: &F,
    _types: &T,
    _by: &H,
)
    ensures { Reflexive (table_of _classes.now (F.names _facts.now) (F.facts _facts.now) (T.assignment _types.now)) (H.test _by.now (T.assignment _types.now)) }
{}

/// What is accepted is accepted by each type with more members, as by a union that has the target, and so is what has fewer members.
pub fn monotone<F: Facts, T: Types, H: ClassGoes<T>>(
    _classes: &ClassRows,
    _facts: &F,
    _types: &T,
    _by: &H,
)
    ensures { Monotone (table_of _classes.now (F.names _facts.now) (F.facts _facts.now) (T.assignment _types.now)) (H.test _by.now (T.assignment _types.now)) }
{}

/// A type is accepted where each of its members is accepted alone.
pub fn each_alone<F: Facts, T: Types, H: ClassGoes<T>>(
    _classes: &ClassRows,
    _facts: &F,
    _types: &T,
    _by: &H,
)
    ensures { EachAlone (table_of _classes.now (F.names _facts.now) (F.facts _facts.now) (T.assignment _types.now)) (H.test _by.now (T.assignment _types.now)) }
{}
