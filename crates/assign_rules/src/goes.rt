//! What a member of a type needs to go to a member of another.
ghost use Rattle.std.specs.Prelude.{◌≡◌, ◌==◌, ◌||◌, ◌&&◌, ◌∷◌, [], Bool, true, false, ℕ, length, Some, Ok, IfOk, MatchOption};
ghost use Rattle.class_rows.specs.Rows.{is_sub_of};
ghost use Rattle.py_base.specs.Builtins.{id_of};
ghost use Rattle.py_base.specs.declared.builtin.Builtin.TheVariants as builtin;
ghost use Rattle.type_terms.specs.Asked.{Cancels};
ghost use Rattle.type_terms.specs.declared.atom.Atom.{out-Atom};
ghost use Rattle.type_terms.specs.declared.atom.Atom.TheOpen.{Atom-F};
ghost use Rattle.type_terms.specs.declared.atom.Slots.TheVariants.{Arguments};
ghost use Rattle.assign_rules.specs.declared.question.Question.TheVariants.{Accepted, Same};
ghost use Rattle.assign_rules.specs.Members.{table_of, is_class, is_lambda, class_of, slots_of, call_result};
ghost use Rattle.assign_rules.specs.Takes.{bound_takes};
ghost use Rattle.assign_rules.specs.Goes as spec;

use crate::members::{
    call_result, class_of, is, is_builtin, is_lambda, made_by_call, single, slots_of,
};
use crate::question::Question;
use crate::rules::Rules;
use crate::takes::{bound_takes, class_takes, func_takes};
use py_base::{Builtin, ClassId, FuncId, List, NoMemory, SiteId, Stop};
use sqlite_items::Items;
use std::alloc::Global;
use type_terms::facts::Facts;
use type_terms::view::Types;
use type_terms::{Atom, Slots};

/// The questions that it depends on, all of them; `None` where it doesn't go.
pub(crate) type Needs = Option<List<Question>>;

/// No question, where this holds.
fn nothing_where(alloc: Global, holds: bool) -> Needs
    ensures { result ≡ spec.nothing_where holds }
{
    if holds { Some(List::new(alloc)) } else { None }
}

/// Whether each type is accepted by the one in its place.
fn accepted_each(
    alloc: Global,
    own: &[Items<Atom>],
    wanted: &[Items<Atom>],
) -> Result<List<Question>, NoMemory>
    ensures { IfOk result (λ r. r ≡ spec.accepted_each own.now wanted.now) }
{
    let mut questions = List::new(alloc);
    let mut rest = wanted;
    for low in own {
        let [high, behind @ ..] = rest else {
            return Ok(questions);
        };
        questions.push(Question::Accepted(copy_of(alloc, low)?, copy_of(alloc, high)?))?;
        rest = behind;
    }
    Ok(questions)
}

/// Whether each type is the same as the one in its place.
fn same_each(
    alloc: Global,
    own: &[Items<Atom>],
    wanted: &[Items<Atom>],
) -> Result<List<Question>, NoMemory>
    ensures { IfOk result (λ r. r ≡ spec.same_each own.now wanted.now) }
{
    let mut questions = List::new(alloc);
    let mut rest = wanted;
    for one in own {
        let [other, behind @ ..] = rest else {
            return Ok(questions);
        };
        questions.push(Question::Same(copy_of(alloc, one)?, copy_of(alloc, other)?))?;
        rest = behind;
    }
    Ok(questions)
}

/// Members in a list of their own.
fn copy_of(alloc: Global, members: &Items<Atom>) -> Result<Items<Atom>, NoMemory>
    ensures { IfOk result (λ copy. copy ≡ members.now) }
{
    let mut copy = Items::new(alloc);
    for atom in members.as_slice() {
        crate::members::push(&mut copy, atom.copy(alloc)?)?;
    }
    Ok(copy)
}

/// Whether each type is accepted by one.
fn all_accepted(
    alloc: Global,
    own: &[Items<Atom>],
    wanted: &Items<Atom>,
) -> Result<List<Question>, NoMemory>
    ensures { IfOk result (λ r. r ≡ spec.all_accepted own.now wanted.now) }
{
    let mut questions = List::new(alloc);
    for low in own {
        questions.push(Question::Accepted(copy_of(alloc, low)?, copy_of(alloc, wanted)?))?;
    }
    Ok(questions)
}

/// Whether a class is this builtin one or stands under it.
fn is_sub<F: Facts>(rules: &Rules<F>, low: ClassId, high: Builtin) -> bool
    ensures { result ≡ is_sub_of rules.now.classes.now low (id_of high) }
{
    rules.classes.is_sub(low, high.id())
}

/// Whether a class goes to another: to itself and those over it; int goes to float and complex, and float to complex.
fn class_goes<F: Facts>(rules: &Rules<F>, low: ClassId, high: ClassId) -> bool
    ensures { result ≡ spec.class_goes rules.now.classes.now low high }
{
    let complex = is(high, Builtin::Complex);
    rules.classes.is_sub(low, high)
        || (is(high, Builtin::Float) || complex) && is_sub(rules, low, Builtin::Int)
        || complex && is_sub(rules, low, Builtin::Float)
}

/// Whether a member goes to the instances of a class.
fn goes_to_instance<F: Facts>(rules: &Rules<F>, low: &Atom, high: ClassId) -> bool
    ensures { result ≡ spec.goes_to_instance rules.now.classes.now (class_of low.now) high }
{
    match class_of(low) {
        Some(class) => class_goes(rules, class, high),
        None => false,
    }
}

/// Whether a member goes to a class itself, as a class under it does.
#[tactic(auto, using(type_terms::proofs::OutOf::outs))]
fn goes_to_class<F: Facts>(rules: &Rules<F>, low: &Atom, high: ClassId) -> bool
    ensures { result ≡ spec.goes_to_class rules.now.classes.now (out-Atom low.now) high }
{
    match low {
        Atom::Class(class) => rules.classes.is_sub(*class, high),
        _ => false,
    }
}

/// The types of the entries.
fn entries(alloc: Global, slots: Slots<Items<Atom>>) -> Result<Items<Items<Atom>>, NoMemory>
    ensures { IfOk result (λ r. r ≡ spec.entries slots) }
{
    match slots {
        Slots::Each(types) => Ok(types),
        Slots::Endless(ty) => {
            let mut types = Items::new(alloc);
            crate::members::push(&mut types, ty)?;
            Ok(types)
        }
        Slots::AnyArguments(_) => Ok(Items::new(alloc)),
        Slots::Arguments(_, _) => Ok(Items::new(alloc)),
    }
}

/// How many of the types in its slots a generic iterates: a dict its keys alone.
fn iterated(class: ClassId, types: &[Items<Atom>]) -> &[Items<Atom>]
    ensures { result.now ≡ spec.iterated class types.now }
{
    if is(class, Builtin::Dict) && !types.is_empty() {
        &types[..1]
    } else {
        types
    }
}

/// Entries to as many.
fn each_goes(alloc: Global, own: &[Items<Atom>], wanted: &[Items<Atom>]) -> Result<Needs, NoMemory>
    ensures { IfOk result (λ r. r ≡ spec.where_holds (length own.now == length wanted.now) (spec.accepted_each own.now wanted.now)) }
{
    if own.len() == wanted.len() {
        return Ok(Some(accepted_each(alloc, own, wanted)?));
    }
    Ok(None)
}

/// A tuple to one of known length: it needs that length.
fn fixed_goes(
    alloc: Global,
    own: Slots<Items<Atom>>,
    wanted: Items<Items<Atom>>,
) -> Result<Needs, NoMemory>
    ensures { IfOk result (λ r. r ≡ spec.fixed_goes own wanted) }
{
    match own {
        Slots::Each(own) => each_goes(alloc, own.as_slice(), wanted.as_slice()),
        Slots::Endless(_own) => Ok(None),
        Slots::AnyArguments(_result) => Ok(None),
        Slots::Arguments(_types, _result) => Ok(None),
    }
}

/// A tuple to a tuple: each goes to one of any length.
fn tuple_goes(
    alloc: Global,
    own: Slots<Items<Atom>>,
    wanted: Slots<Items<Atom>>,
) -> Result<Needs, NoMemory>
    ensures { IfOk result (λ r. r ≡ spec.tuple_goes own wanted) }
{
    match wanted {
        Slots::Each(wanted) => fixed_goes(alloc, own, wanted),
        Slots::Endless(wanted) => {
            let own = entries(alloc, own)?;
            Ok(Some(all_accepted(alloc, own.as_slice(), &wanted)?))
        }
        Slots::AnyArguments(_result) => Ok(None),
        Slots::Arguments(_types, _result) => Ok(None),
    }
}

/// Entries to the one slot of a Sequence or an Iterable.
fn entries_go(alloc: Global, own: &[Items<Atom>], wanted: &[Items<Atom>]) -> Result<Needs, NoMemory>
    ensures { IfOk result (λ r. r ≡ spec.entries_go own.now wanted.now) }
{
    match wanted {
        [slot] => Ok(Some(all_accepted(alloc, own, slot)?)),
        _ => Ok(None),
    }
}

/// Whether the slots of this class have to be the same.
fn is_invariant(class: ClassId) -> bool
    ensures { result ≡ (is_class class (id_of builtin.List) || is_class class (id_of builtin.Set) || is_class class (id_of builtin.Dict)) }
{
    is(class, Builtin::List) || is(class, Builtin::Set) || is(class, Builtin::Dict)
}

/// The slots of a generic to those of one over it: of list, set and dict they have to be the same, of tuple, Sequence and
/// Iterable they are accepted in their turn.
fn slots_go(
    alloc: Global,
    low: ClassId,
    own: Slots<Items<Atom>>,
    high: ClassId,
    wanted: Slots<Items<Atom>>,
) -> Result<Needs, NoMemory>
    ensures { IfOk result (λ r. r ≡ spec.slots_go low own high wanted) }
{
    if is_invariant(high) {
        let own = entries(alloc, own)?;
        let wanted = entries(alloc, wanted)?;
        return Ok(Some(same_each(alloc, own.as_slice(), wanted.as_slice())?));
    }
    if is(high, Builtin::Tuple) {
        return tuple_goes(alloc, own, wanted);
    }
    let own = entries(alloc, own)?;
    let wanted = entries(alloc, wanted)?;
    entries_go(alloc, iterated(low, own.as_slice()), wanted.as_slice())
}

/// The type of the instances of a class, as the only one of a list.
fn one_instance(alloc: Global, class: Builtin) -> Result<Items<Items<Atom>>, NoMemory>
    ensures { IfOk result (λ r. r ≡ spec.instance (id_of class) ∷ []) }
{
    let mut types = Items::new(alloc);
    crate::members::push(&mut types, single(alloc, Atom::Inst(class.id()))?)?;
    Ok(types)
}

/// What a class without slots iterates, where the language says it.
fn text_entries<F: Facts>(
    alloc: Global,
    rules: &Rules<F>,
    low: ClassId,
) -> Result<Items<Items<Atom>>, NoMemory>
    ensures { IfOk result (λ r. r ≡ spec.text_entries rules.now.classes.now low) }
{
    if is_sub(rules, low, Builtin::Str) || is_sub(rules, low, Builtin::TextIo) {
        return one_instance(alloc, Builtin::Str);
    }
    if is_sub(rules, low, Builtin::Bytes) || is_sub(rules, low, Builtin::Range) {
        return one_instance(alloc, Builtin::Int);
    }
    Ok(Items::new(alloc))
}

/// A class without slots to a generic over it: a text iterates as the language says, and of the slots of a class of a file nothing is
/// known.
fn plain_goes<F: Facts>(
    alloc: Global,
    rules: &Rules<F>,
    low: ClassId,
    high: ClassId,
    wanted: Slots<Items<Atom>>,
) -> Result<Needs, NoMemory>
    ensures { IfOk result (λ r. r ≡ spec.plain_goes rules.now.classes.now low high wanted) }
{
    if is(high, Builtin::Sequence) || is(high, Builtin::Iterable) {
        let own = text_entries(alloc, rules, low)?;
        let wanted = entries(alloc, wanted)?;
        return entries_go(alloc, own.as_slice(), wanted.as_slice());
    }
    Ok(Some(List::new(alloc)))
}

/// A member to the instances of a generic class with these slots.
fn goes_to_slots<F: Facts, T: Types>(
    alloc: Global,
    rules: &Rules<F>,
    low: &Atom,
    high: ClassId,
    wanted: Slots<Items<Atom>>,
    types: &mut T,
) -> Result<Needs, Stop>
    ensures value { IfOk result (λ r. r ≡ spec.goes_to_slots (table_of rules.now.classes.now (F.names rules.now.facts.now) (F.facts rules.now.facts.now) (T.assignment types.old)) (class_of low.now) (slots_of (table_of rules.now.classes.now (F.names rules.now.facts.now) (F.facts rules.now.facts.now) (T.assignment types.old)) low.now) (Some high) (Some wanted)) }
    ensures same { T.assignment types.new ≡ T.assignment types.old }
    ensures stays { T.stays types.old types.new }
    ensures cancels { Cancels (T.seen types.old) (T.seen types.new) result }
{
    let Some(class) = class_of(low) else {
        return Ok(None);
    };
    if !rules.classes.is_sub(class, high) {
        return Ok(None);
    }
    match slots_of(alloc, rules, low, types)? {
        Some(own) => Ok(slots_go(alloc, class, own, high, wanted)?),
        None => Ok(plain_goes(alloc, rules, class, high, wanted)?),
    }
}

/// A member to the instances of a generic class with the slots of a member, which are written or those of a site.
fn goes_to_made<F: Facts, T: Types>(
    alloc: Global,
    rules: &Rules<F>,
    low: &Atom,
    high: &Atom,
    class: ClassId,
    types: &mut T,
) -> Result<Needs, Stop>
    ensures value { IfOk result (λ r. r ≡ spec.goes_to_slots (table_of rules.now.classes.now (F.names rules.now.facts.now) (F.facts rules.now.facts.now) (T.assignment types.old)) (class_of low.now) (slots_of (table_of rules.now.classes.now (F.names rules.now.facts.now) (F.facts rules.now.facts.now) (T.assignment types.old)) low.now) (Some class) (slots_of (table_of rules.now.classes.now (F.names rules.now.facts.now) (F.facts rules.now.facts.now) (T.assignment types.old)) high.now)) }
    ensures same { T.assignment types.new ≡ T.assignment types.old }
    ensures stays { T.stays types.old types.new }
    ensures cancels { Cancels (T.seen types.old) (T.seen types.new) result }
{
    match slots_of(alloc, rules, high, types)? {
        Some(wanted) => goes_to_slots(alloc, rules, low, class, wanted, types),
        None => Ok(None),
    }
}

/// How many arguments are written for a callable; `None` where any go.
fn wanted_count(wanted: &Slots<Items<Atom>>) -> Option<usize>
    ensures { MatchOption result ((takes : ℕ → Bool) → spec.takes_wanted takes wanted.now ≡ true) (λ count. (takes : ℕ → Bool) → spec.takes_wanted takes wanted.now ≡ takes count) }
{
    match wanted {
        Slots::Arguments(types, _) => Some(types.len()),
        _ => None,
    }
}

/// The result that is written for a callable; `None` of what is none.
fn result_of(slots: &Slots<Items<Atom>>) -> Option<&Items<Atom>>
    ensures { MatchOption result (spec.is_callable_form slots.now ≡ false) (λ r. (spec.is_callable_form slots.now ≡ true) × (r.now ≡ spec.result_of slots.now)) }
{
    match slots {
        Slots::AnyArguments(result) => Some(result),
        Slots::Arguments(_, result) => Some(result),
        _ => None,
    }
}

/// A result to the one that is wanted.
fn result_goes(
    alloc: Global,
    given: Items<Atom>,
    wanted: &Slots<Items<Atom>>,
) -> Result<Needs, NoMemory>
    ensures { spec.is_callable_form wanted.now ≡ true → IfOk result (λ r. r ≡ Some (Accepted given (spec.result_of wanted.now) ∷ [])) }
{
    let Some(high) = result_of(wanted) else {
        return Ok(None);
    };
    let mut questions = List::new(alloc);
    questions.push(Question::Accepted(given, copy_of(alloc, high)?))?;
    Ok(Some(questions))
}

/// A function to a callable: by how many arguments it takes and by its result.
fn func_goes<F: Facts, T: Types>(
    alloc: Global,
    rules: &Rules<F>,
    func: FuncId,
    wanted: &Slots<Items<Atom>>,
    types: &mut T,
) -> Result<Needs, Stop>
    ensures value { spec.is_callable_form wanted.now ≡ true → IfOk result (λ r. r ≡ spec.func_goes (table_of rules.now.classes.now (F.names rules.now.facts.now) (F.facts rules.now.facts.now) (T.assignment types.old)) func wanted.now) }
    ensures same { T.assignment types.new ≡ T.assignment types.old }
    ensures stays { T.stays types.old types.new }
    ensures cancels { Cancels (T.seen types.old) (T.seen types.new) result }
{
    if let Some(count) = wanted_count(wanted) {
        if !func_takes(rules, func, count) {
            return Ok(None);
        }
    }
    let result = call_result(alloc, rules, func, types)?;
    Ok(result_goes(alloc, result, wanted)?)
}

/// A method whose first parameter is taken likewise.
fn bound_goes<F: Facts, T: Types>(
    alloc: Global,
    rules: &Rules<F>,
    func: FuncId,
    wanted: &Slots<Items<Atom>>,
    types: &mut T,
) -> Result<Needs, Stop>
    ensures value { spec.is_callable_form wanted.now ≡ true → IfOk result (λ r. r ≡ spec.call_goes (spec.takes_wanted (bound_takes (F.facts rules.now.facts.now) func) wanted.now) (call_result (table_of rules.now.classes.now (F.names rules.now.facts.now) (F.facts rules.now.facts.now) (T.assignment types.old)) func) wanted.now) }
    ensures same { T.assignment types.new ≡ T.assignment types.old }
    ensures stays { T.stays types.old types.new }
    ensures cancels { Cancels (T.seen types.old) (T.seen types.new) result }
{
    if let Some(count) = wanted_count(wanted) {
        if !bound_takes(rules, func, count) {
            return Ok(None);
        }
    }
    let result = call_result(alloc, rules, func, types)?;
    Ok(result_goes(alloc, result, wanted)?)
}

/// A lambda likewise; no other value that is made at a site goes to a callable.
fn made_goes<F: Facts, T: Types>(
    alloc: Global,
    rules: &Rules<F>,
    site: SiteId,
    wanted: &Slots<Items<Atom>>,
    types: &mut T,
) -> Result<Needs, Stop>
    ensures value { spec.is_callable_form wanted.now ≡ true → IfOk result (λ r. r ≡ spec.lambda_goes (table_of rules.now.classes.now (F.names rules.now.facts.now) (F.facts rules.now.facts.now) (T.assignment types.old)) (is_lambda site) ((F.facts rules.now.facts.now).func_at site.node) wanted.now) }
    ensures same { T.assignment types.new ≡ T.assignment types.old }
    ensures stays { T.stays types.old types.new }
    ensures cancels { Cancels (T.seen types.old) (T.seen types.new) result }
{
    if !is_lambda(site) {
        return Ok(None);
    }
    match rules.facts.func_at(site.node) {
        Some(func) => func_goes(alloc, rules, func, wanted, types),
        None => Ok(None),
    }
}

/// A class likewise; a builtin one goes to each callable.
fn class_itself_goes<F: Facts, T: Types>(
    alloc: Global,
    rules: &Rules<F>,
    class: ClassId,
    wanted: &Slots<Items<Atom>>,
    types: &mut T,
) -> Result<Needs, Stop>
    ensures value { spec.is_callable_form wanted.now ≡ true → IfOk result (λ r. r ≡ spec.goes_to_callable (table_of rules.now.classes.now (F.names rules.now.facts.now) (F.facts rules.now.facts.now) (T.assignment types.old)) (Atom-F.Class class) wanted.now) }
    ensures same { T.assignment types.new ≡ T.assignment types.old }
    ensures stays { T.stays types.old types.new }
    ensures cancels { Cancels (T.seen types.old) (T.seen types.new) result }
{
    if is_builtin(class) {
        return Ok(Some(List::new(alloc)));
    }
    if let Some(count) = wanted_count(wanted) {
        if !class_takes(alloc, rules, class, count, types)? {
            return Ok(None);
        }
    }
    Ok(result_goes(alloc, made_by_call(alloc, rules, class)?, wanted)?)
}

/// Whether a callable takes so many arguments.
fn takes_as_many(slots: &Slots<Items<Atom>>, count: usize) -> bool
    ensures { result ≡ spec.takes_as_many slots.now count }
{
    match slots {
        Slots::Arguments(types, _) => types.len() == count,
        Slots::Each(_) => true,
        Slots::Endless(_) => true,
        Slots::AnyArguments(_) => true,
    }
}

/// A callable to a callable: by the number of arguments, unless one of them takes any, and by its result.
fn callable_goes(
    alloc: Global,
    own: &Slots<Items<Atom>>,
    wanted: &Slots<Items<Atom>>,
) -> Result<Needs, NoMemory>
    ensures { spec.is_callable_form wanted.now ≡ true → IfOk result (λ r. r ≡ spec.call_goes (spec.is_callable_form own.now && spec.takes_wanted (spec.takes_as_many own.now) wanted.now) (spec.result_of own.now) wanted.now) }
{
    let Some(result) = result_of(own) else {
        return Ok(None);
    };
    if let Some(count) = wanted_count(wanted) {
        if !takes_as_many(own, count) {
            return Ok(None);
        }
    }
    result_goes(alloc, copy_of(alloc, result)?, wanted)
}

/// Instances of a class under Callable go to each.
fn callable_class<F: Facts>(alloc: Global, rules: &Rules<F>, class: ClassId) -> Result<Needs, Stop>
    ensures { result ≡ Ok (spec.nothing_where (is_sub_of rules.now.classes.now class (id_of builtin.Callable))) }
{
    Ok(nothing_where(alloc, is_sub(rules, class, Builtin::Callable)))
}

/// A member to a callable.
#[tactic(auto, using(type_terms::proofs::OutOf::outs))]
fn goes_to_callable<F: Facts, T: Types>(
    alloc: Global,
    rules: &Rules<F>,
    low: &Atom,
    wanted: &Slots<Items<Atom>>,
    types: &mut T,
) -> Result<Needs, Stop>
    ensures value { spec.is_callable_form wanted.now ≡ true → IfOk result (λ r. r ≡ spec.goes_to_callable (table_of rules.now.classes.now (F.names rules.now.facts.now) (F.facts rules.now.facts.now) (T.assignment types.old)) (out-Atom low.now) wanted.now) }
    ensures same { T.assignment types.new ≡ T.assignment types.old }
    ensures stays { T.stays types.old types.new }
    ensures cancels { Cancels (T.seen types.old) (T.seen types.new) result }
{
    match low {
        Atom::Lit(value) => callable_class(alloc, rules, value.class()),
        Atom::Inst(class) => callable_class(alloc, rules, *class),
        Atom::Gen(_, own) => Ok(callable_goes(alloc, own, wanted)?),
        Atom::Site(site) => made_goes(alloc, rules, *site, wanted, types),
        Atom::Class(class) => class_itself_goes(alloc, rules, *class, wanted, types),
        Atom::Func(func) => func_goes(alloc, rules, *func, wanted, types),
        Atom::Bound(func) => bound_goes(alloc, rules, *func, wanted, types),
        Atom::BuiltMethod(_, _) => Ok(Some(List::new(alloc))),
        Atom::BuiltFunc(_) => Ok(Some(List::new(alloc))),
        _ => Ok(None),
    }
}

/// Whether these are the slots of a callable.
fn is_callable(slots: &Slots<Items<Atom>>) -> bool
    ensures { result ≡ spec.is_callable_form slots.now }
{
    match slots {
        Slots::Each(_) => false,
        Slots::Endless(_) => false,
        Slots::AnyArguments(_) => true,
        Slots::Arguments(_, _) => true,
    }
}

/// What a member needs to go to the instances of a generic class or to a callable.
fn goes_to_generic<F: Facts, T: Types>(
    alloc: Global,
    rules: &Rules<F>,
    low: &Atom,
    high: &Atom,
    class: ClassId,
    wanted: &Slots<Items<Atom>>,
    types: &mut T,
) -> Result<Needs, Stop>
    ensures value { IfOk result (λ r. r ≡ spec.goes_to_generic (table_of rules.now.classes.now (F.names rules.now.facts.now) (F.facts rules.now.facts.now) (T.assignment types.old)) low.now high.now class wanted.now) }
    ensures same { T.assignment types.new ≡ T.assignment types.old }
    ensures stays { T.stays types.old types.new }
    ensures cancels { Cancels (T.seen types.old) (T.seen types.new) result }
{
    if is_callable(wanted) {
        return goes_to_callable(alloc, rules, low, wanted, types);
    }
    goes_to_made(alloc, rules, low, high, class, types)
}

/// What a member needs to go to one that isn't itself.
#[tactic(auto, using(type_terms::proofs::OutOf::outs))]
fn goes_to_other<F: Facts, T: Types>(
    alloc: Global,
    rules: &Rules<F>,
    low: &Atom,
    high: &Atom,
    types: &mut T,
) -> Result<Needs, Stop>
    ensures value { IfOk result (λ r. r ≡ spec.level_goes (table_of rules.now.classes.now (F.names rules.now.facts.now) (F.facts rules.now.facts.now) (T.assignment types.old)) low.now high.now (out-Atom high.now)) }
    ensures same { T.assignment types.new ≡ T.assignment types.old }
    ensures stays { T.stays types.old types.new }
    ensures cancels { Cancels (T.seen types.old) (T.seen types.new) result }
{
    match high {
        Atom::Inst(class) => Ok(nothing_where(alloc, goes_to_instance(rules, low, *class))),
        Atom::Class(class) => Ok(nothing_where(alloc, goes_to_class(rules, low, *class))),
        Atom::Gen(class, wanted) => {
            goes_to_generic(alloc, rules, low, high, *class, wanted, types)
        }
        Atom::Site(site) => goes_to_made(alloc, rules, low, high, site.class, types),
        _ => Ok(None),
    }
}

/// What a member needs to go to another. To itself it goes.
#[tactic(auto, unfolding(crate::specs::Goes::goes))]
pub(crate) fn goes<F: Facts, T: Types>(
    alloc: Global,
    rules: &Rules<F>,
    low: &Atom,
    high: &Atom,
    types: &mut T,
) -> Result<Needs, Stop>
    ensures value { IfOk result (λ r. r ≡ spec.goes (table_of rules.now.classes.now (F.names rules.now.facts.now) (F.facts rules.now.facts.now) (T.assignment types.old)) low.now high.now) }
    ensures same { T.assignment types.new ≡ T.assignment types.old }
    ensures stays { T.stays types.old types.new }
    ensures cancels { Cancels (T.seen types.old) (T.seen types.new) result }
{
    if low == high {
        return Ok(Some(List::new(alloc)));
    }
    goes_to_other(alloc, rules, low, high, types)
}

/// The questions on the slots of two members that are alike: they have to be the same.
fn same_slots(
    alloc: Global,
    own: &Slots<Items<Atom>>,
    others: &Slots<Items<Atom>>,
) -> Result<Needs, NoMemory>
    ensures { IfOk result (λ r. r ≡ spec.same_slots own.now others.now) }
{
    match (own, others) {
        (Slots::Each(own), Slots::Each(others)) => {
            same_types(alloc, own.as_slice(), others.as_slice())
        }
        (Slots::Endless(own), Slots::Endless(other)) => same_type(alloc, own, other),
        (Slots::AnyArguments(own), Slots::AnyArguments(other)) => same_type(alloc, own, other),
        (Slots::Arguments(own, result), Slots::Arguments(others, other)) => {
            same_callables(alloc, own.as_slice(), result, others.as_slice(), other)
        }
        _ => Ok(None),
    }
}

fn same_types(alloc: Global, own: &[Items<Atom>], others: &[Items<Atom>]) -> Result<Needs, NoMemory>
    ensures { IfOk result (λ r. r ≡ spec.where_holds (length own.now == length others.now) (spec.same_each own.now others.now)) }
{
    if own.len() != others.len() {
        return Ok(None);
    }
    Ok(Some(same_each(alloc, own, others)?))
}

fn same_type(alloc: Global, own: &Items<Atom>, other: &Items<Atom>) -> Result<Needs, NoMemory>
    ensures { IfOk result (λ r. r ≡ Some (Same own.now other.now ∷ [])) }
{
    let mut questions = List::new(alloc);
    questions.push(Question::Same(copy_of(alloc, own)?, copy_of(alloc, other)?))?;
    Ok(Some(questions))
}

fn same_callables(
    alloc: Global,
    own: &[Items<Atom>],
    given: &Items<Atom>,
    others: &[Items<Atom>],
    other: &Items<Atom>,
) -> Result<Needs, NoMemory>
    ensures { IfOk result (λ r. r ≡ spec.same_slots (Arguments own.now given.now) (Arguments others.now other.now)) }
{
    if own.len() != others.len() {
        return Ok(None);
    }
    let mut questions = same_each(alloc, own, others)?;
    questions.push(Question::Same(copy_of(alloc, given)?, copy_of(alloc, other)?))?;
    Ok(Some(questions))
}

/// Whether two members have the same class.
fn has_equal_class(one: &Atom, other: &Atom) -> bool
    ensures { result ≡ spec.has_equal_class (class_of one.now) (class_of other.now) }
{
    match (class_of(one), class_of(other)) {
        (Some(one), Some(other)) => one.0 == other.0,
        _ => false,
    }
}

/// What a member needs to be the like of another: of a literal it is an equal one, of another member one with an equal class and
/// the same slots.
#[tactic(auto, unfolding(crate::specs::Goes::like))]
pub(crate) fn like<F: Facts, T: Types>(
    alloc: Global,
    rules: &Rules<F>,
    one: &Atom,
    other: &Atom,
    types: &mut T,
) -> Result<Needs, Stop>
    ensures value { IfOk result (λ r. r ≡ spec.like (table_of rules.now.classes.now (F.names rules.now.facts.now) (F.facts rules.now.facts.now) (T.assignment types.old)) one.now other.now) }
    ensures same { T.assignment types.new ≡ T.assignment types.old }
    ensures stays { T.stays types.old types.new }
    ensures cancels { Cancels (T.seen types.old) (T.seen types.new) result }
{
    if one == other {
        return Ok(Some(List::new(alloc)));
    }
    if !has_equal_class(one, other) {
        return Ok(None);
    }
    let Some(own) = slots_of(alloc, rules, one, types)? else {
        return Ok(None);
    };
    match slots_of(alloc, rules, other, types)? {
        Some(others) => Ok(same_slots(alloc, &own, &others)?),
        None => Ok(None),
    }
}

/// Whether a member passes whatever the target is: Unknown and an instance of a class with an Unknown base do, and a mark stands for no
/// value.
#[tactic(auto, using(type_terms::proofs::OutOf::outs), unfolding(crate::specs::Goes::passes))]
pub(crate) fn passes<F: Facts>(rules: &Rules<F>, atom: &Atom) -> bool
    ensures { result ≡ spec.passes rules.now.classes.now atom.now }
{
    match atom {
        Atom::Lit(value) => rules.classes.is_open(value.class()),
        Atom::Inst(class) => rules.classes.is_open(*class),
        Atom::Unknown => true,
        Atom::Unbound => true,
        Atom::Open => true,
        Atom::Here => true,
        _ => false,
    }
}

/// Whether any member is accepted where the target has this one.
#[tactic(auto, using(type_terms::proofs::OutOf::outs), unfolding(crate::specs::Goes::takes_all))]
pub(crate) fn takes_all(atom: &Atom) -> bool
    ensures { result ≡ spec.takes_all atom.now }
{
    match atom {
        Atom::Inst(class) => is(*class, Builtin::Object),
        Atom::Unknown => true,
        _ => false,
    }
}

#[tactic(auto, using(type_terms::proofs::OutOf::outs), unfolding(crate::specs::Goes::is_unknown))]
pub(crate) fn is_unknown(atom: &Atom) -> bool
    ensures { result ≡ spec.is_unknown atom.now }
{
    matches!(atom, Atom::Unknown)
}
