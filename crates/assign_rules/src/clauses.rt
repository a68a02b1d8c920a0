//! What a question needs: for each member the ways in which it goes on, one of which has to hold.
ghost use Rattle.std.specs.Prelude.{◌≡◌, ◌↔◌, ◌||◌, ◌++◌, [], All, Some, Err, IsTrue, IfOk, OnOk, option_to_list};
ghost use Rattle.py_base.specs.declared.stop.Stop.TheVariants.{Cancelled};
ghost use Rattle.type_terms.specs.Asked.{Cancels};
ghost use Rattle.assign_rules.specs.declared.question.Question.TheVariants.{Accepted, Same};
ghost use Rattle.assign_rules.specs.Members.{table_of};
ghost use Rattle.std.specs.List.{list_any};
ghost use Rattle.assign_rules.specs.Goes as spec;
ghost use Rattle.assign_rules.specs.Accepts.{SameTest, has_unknown, no_test, ways, like_ways, HasWay, ByTest, IsTaken, Holds};
ghost use Rattle.assign_rules.specs.Clauses.{AreWays, AreClauses, Adds};

use crate::class_goes::ClassGoes;
use crate::goes::{Needs, goes, is_unknown, like, passes, takes_all};
use crate::members::is_instance;
use crate::question::Question;
use crate::rules::Rules;
use py_base::{List, Stop};
use std::alloc::Global;
use type_terms::Atom;
use type_terms::facts::Facts;
use type_terms::view::Types;

/// The ways in which a member goes on, each with the questions that it needs; `None` where one needs nothing.
pub(crate) type Ways = Option<List<List<Question>>>;

/// Whether this is a way that needs nothing.
fn is_free(way: &Needs) -> bool
    ensures { IsTrue result ↔ (way.now ≡ Some []) }
{
    match way {
        Some(questions) => questions.is_empty(),
        None => false,
    }
}

/// Adds what there is.
fn add<X: Drop>(items: &mut List<X>, item: Option<X>) -> Result<(), Stop>
    ensures never { result ≡ Err Cancelled → ⊥ }
    ensures value { OnOk result (items.new ≡ items.old ++ option_to_list item) }
{
    if let Some(item) = item {
        items.push(item)?;
    }
    Ok(())
}

/// The ways from a member to some of these.
fn ways_to<F: Facts, T: Types>(
    alloc: Global,
    rules: &Rules<F>,
    low: &Atom,
    target: &[Atom],
    types: &mut T,
) -> Result<Ways, Stop>
    ensures value { IfOk result (AreWays (λ set. HasWay set (ways (table_of rules.now.classes.now (F.names rules.now.facts.now) (F.facts rules.now.facts.now) (T.assignment types.old)) low.now target.now))) }
    ensures same { T.assignment types.new ≡ T.assignment types.old }
    ensures stays { T.stays types.old types.new }
    ensures cancels { Cancels (T.seen types.old) (T.seen types.new) result }
{
    let mut ways = List::new(alloc);
    for high in target {
        let way = goes(alloc, rules, low, high, types)?;
        if is_free(&way) {
            return Ok(None);
        }
        add(&mut ways, way)?;
    }
    Ok(Some(ways))
}

/// The ways in which a member has its like among these.
fn like_ways<F: Facts, T: Types>(
    alloc: Global,
    rules: &Rules<F>,
    one: &Atom,
    others: &[Atom],
    types: &mut T,
) -> Result<Ways, Stop>
    ensures value { IfOk result (AreWays (λ set. HasWay set (like_ways (table_of rules.now.classes.now (F.names rules.now.facts.now) (F.facts rules.now.facts.now) (T.assignment types.old)) one.now others.now))) }
    ensures same { T.assignment types.new ≡ T.assignment types.old }
    ensures stays { T.stays types.old types.new }
    ensures cancels { Cancels (T.seen types.old) (T.seen types.new) result }
{
    let mut ways = List::new(alloc);
    for other in others {
        let way = like(alloc, rules, one, other, types)?;
        if is_free(&way) {
            return Ok(None);
        }
        add(&mut ways, way)?;
    }
    Ok(Some(ways))
}

/// Whether an instance goes to one of these by the test.
fn goes_by_test<T: Types, H: ClassGoes<T>>(
    alloc: Global,
    low: &Atom,
    target: &[Atom],
    types: &mut T,
    by: &mut H,
) -> Result<bool, Stop>
    ensures value { IfOk result (λ r. IsTrue r ↔ ByTest (H.test by.old (T.assignment types.old)) low.now target.now) }
    ensures same { T.assignment types.new ≡ T.assignment types.old }
    ensures stays { T.stays types.old types.new }
    ensures cancels { Cancels (T.seen types.old) (T.seen types.new) result }
    ensures test { SameTest (H.test by.new) (H.test by.old) }
{
    if !is_instance(low) {
        return Ok(false);
    }
    for high in target {
        if let Atom::Inst(class) = high {
            if by.goes(alloc, low, *class, types)? {
                return Ok(true);
            }
        }
    }
    Ok(false)
}

/// What a member needs to be taken by a target.
fn member_ways<F: Facts, T: Types, H: ClassGoes<T>>(
    alloc: Global,
    rules: &Rules<F>,
    low: &Atom,
    target: &[Atom],
    types: &mut T,
    by: &mut H,
) -> Result<Ways, Stop>
    ensures value { IfOk result (AreWays (λ set. IsTaken (table_of rules.now.classes.now (F.names rules.now.facts.now) (F.facts rules.now.facts.now) (T.assignment types.old)) (H.test by.old (T.assignment types.old)) set target.now low.now)) }
    ensures same { T.assignment types.new ≡ T.assignment types.old }
    ensures stays { T.stays types.old types.new }
    ensures cancels { Cancels (T.seen types.old) (T.seen types.new) result }
    ensures test { SameTest (H.test by.new) (H.test by.old) }
{
    if passes(rules, low) {
        return Ok(None);
    }
    let Some(ways) = ways_to(alloc, rules, low, target, types)? else {
        return Ok(None);
    };
    if goes_by_test(alloc, low, target, types, by)? {
        return Ok(None);
    }
    Ok(Some(ways))
}

/// What each member of a source needs to be accepted.
fn accepted_clauses<F: Facts, T: Types, H: ClassGoes<T>>(
    alloc: Global,
    rules: &Rules<F>,
    source: &[Atom],
    target: &[Atom],
    types: &mut T,
    by: &mut H,
) -> Result<List<List<List<Question>>>, Stop>
    ensures value { IfOk result (AreClauses (λ set. Holds (table_of rules.now.classes.now (F.names rules.now.facts.now) (F.facts rules.now.facts.now) (T.assignment types.old)) (H.test by.old (T.assignment types.old)) set (Accepted source.now target.now))) }
    ensures same { T.assignment types.new ≡ T.assignment types.old }
    ensures stays { T.stays types.old types.new }
    ensures cancels { Cancels (T.seen types.old) (T.seen types.new) result }
    ensures test { SameTest (H.test by.new) (H.test by.old) }
{
    let mut clauses = List::new(alloc);
    if takes_each(target) {
        return Ok(clauses);
    }
    for low in source {
        add(
            &mut clauses,
            member_ways(alloc, rules, low, target, types, by)?,
        )?;
    }
    Ok(clauses)
}

/// Adds what each of some members needs to have its like among others.
fn add_likes<F: Facts, T: Types>(
    alloc: Global,
    rules: &Rules<F>,
    members: &[Atom],
    others: &[Atom],
    clauses: &mut List<List<List<Question>>>,
    types: &mut T,
) -> Result<(), Stop>
    ensures value { OnOk result (Adds (λ set. All (λ x. HasWay set (like_ways (table_of rules.now.classes.now (F.names rules.now.facts.now) (F.facts rules.now.facts.now) (T.assignment types.old)) x others.now)) members.now) clauses.old clauses.new) }
    ensures same { T.assignment types.new ≡ T.assignment types.old }
    ensures stays { T.stays types.old types.new }
    ensures cancels { Cancels (T.seen types.old) (T.seen types.new) result }
{
    for one in members {
        add(clauses, like_ways(alloc, rules, one, others, types)?)?;
    }
    Ok(())
}

fn has_unknown(members: &[Atom]) -> bool
    ensures { result ≡ has_unknown members.now }
{
    members.iter().any(is_unknown)
}

/// Whether one of two types has Unknown.
fn is_one_unknown(own: &[Atom], others: &[Atom]) -> bool
    ensures { result ≡ (has_unknown own.now || has_unknown others.now) }
{
    has_unknown(own) || has_unknown(others)
}

fn takes_each(members: &[Atom]) -> bool
    ensures { result ≡ list_any spec.takes_all members.now }
{
    members.iter().any(takes_all)
}

/// What two types need to be the same.
fn same_clauses<F: Facts, T: Types>(
    alloc: Global,
    rules: &Rules<F>,
    own: &[Atom],
    others: &[Atom],
    types: &mut T,
) -> Result<List<List<List<Question>>>, Stop>
    ensures value { IfOk result (AreClauses (λ set. Holds (table_of rules.now.classes.now (F.names rules.now.facts.now) (F.facts rules.now.facts.now) (T.assignment types.old)) no_test set (Same own.now others.now))) }
    ensures same { T.assignment types.new ≡ T.assignment types.old }
    ensures stays { T.stays types.old types.new }
    ensures cancels { Cancels (T.seen types.old) (T.seen types.new) result }
{
    let mut clauses = List::new(alloc);
    if is_one_unknown(own, others) {
        return Ok(clauses);
    }
    add_likes(alloc, rules, own, others, &mut clauses, types)?;
    add_likes(alloc, rules, others, own, &mut clauses, types)?;
    Ok(clauses)
}

/// What a question needs.
pub(crate) fn clauses_of<F: Facts, T: Types, H: ClassGoes<T>>(
    alloc: Global,
    rules: &Rules<F>,
    question: &Question,
    types: &mut T,
    by: &mut H,
) -> Result<List<List<List<Question>>>, Stop>
    ensures value { IfOk result (AreClauses (λ set. Holds (table_of rules.now.classes.now (F.names rules.now.facts.now) (F.facts rules.now.facts.now) (T.assignment types.old)) (H.test by.old (T.assignment types.old)) set question.now)) }
    ensures same { T.assignment types.new ≡ T.assignment types.old }
    ensures stays { T.stays types.old types.new }
    ensures cancels { Cancels (T.seen types.old) (T.seen types.new) result }
    ensures test { SameTest (H.test by.new) (H.test by.old) }
{
    match question {
        Question::Accepted(source, target) => {
            accepted_clauses(
                alloc,
                rules,
                source.as_slice(),
                target.as_slice(),
                types,
                by,
            )
        }
        Question::Same(own, others) => {
            same_clauses(alloc, rules, own.as_slice(), others.as_slice(), types)
        }
    }
}
