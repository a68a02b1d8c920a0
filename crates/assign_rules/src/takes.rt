//! Whether a function or a class can take so many plain arguments.
ghost use Rattle.std.specs.Prelude.{◌≡◌, ◌==◌, ◌&&◌, ◌||◌, length, drop, filter, not, IfOk};
ghost use Rattle.std.specs.List.{list_any, list_all, flat_map};
ghost use Rattle.class_rows.specs.Rows.{order_of};
ghost use Rattle.type_terms.specs.Asked.{Cancels};
ghost use Rattle.assign_rules.specs.Members.{table_of};
ghost use Rattle.assign_rules.specs.Takes as spec;

use crate::members::{call_result, is, is_builtin, push};
use crate::rules::Rules;
use py_base::{Builtin, ClassId, FuncId, Key, NameId, Stop, SymId};
use sqlite_items::Items;
use std::alloc::Global;
use type_terms::Atom;
use type_terms::facts::{Facts, FuncKind, Param, ParamKind};
use type_terms::view::Types;

/// `__init__`, by its place among the names of the language.
const INIT: NameId = NameId(135);

/// Whether a parameter takes its argument by place.
fn is_by_place(param: &Param) -> bool
    ensures { result ≡ spec.is_by_place param.now.kind }
{
    matches!(param.kind, ParamKind::PlaceOnly | ParamKind::Plain)
}

/// Whether each parameter by name alone has a default.
fn needs_no_name(params: &[Param]) -> bool
    ensures { result ≡ list_all (λ p. p.default || not (spec.is_key_only p.kind)) params.now }
{
    params.iter().all(|param| param.default || !matches!(param.kind, ParamKind::KeyOnly))
}

/// Whether there is a parameter that takes all further plain arguments.
fn has_star(params: &[Param]) -> bool
    ensures { result ≡ list_any (λ p. spec.is_star p.kind) params.now }
{
    params
        .iter()
        .any(|param| matches!(param.kind, ParamKind::Star))
}

/// How many parameters take their argument by place.
fn count_by_place(params: &[Param]) -> usize
    ensures { result ≡ length (filter (λ p. spec.is_by_place p.kind) params.now) }
{
    let mut count = 0;
    for param in params {
        count += is_by_place(param) as usize;
    }
    count
}

/// Whether a parameter by place has no argument and no default, where so many arguments are left.
fn is_unfilled(param: &Param, left: usize) -> bool
    ensures { result ≡ (left == 0 && not param.now.default) }
{
    left == 0 && !param.default
}

/// Whether the parameters by place behind the first so many have defaults.
fn rest_has_defaults(params: &[Param], count: usize) -> bool
    ensures { result ≡ list_all (λ p. p.default) (drop count (filter (λ p. spec.is_by_place p.kind) params.now)) }
{
    let mut left = count;
    for param in params {
        if !is_by_place(param) {
            continue;
        }
        if is_unfilled(param, left) {
            return false;
        }
        left = left.saturating_sub(1);
    }
    true
}

/// Whether parameters can take so many plain arguments.
fn takes_plain(params: &[Param], count: usize) -> bool
    ensures { result ≡ spec.takes_plain params.now count }
{
    needs_no_name(params)
        && (count <= count_by_place(params) || has_star(params))
        && rest_has_defaults(params, count)
}

/// The parameters of a method whose first one is taken.
fn without_first(params: &[Param]) -> &[Param]
    ensures { result.now ≡ spec.without_first params.now }
{
    match params {
        [first, rest @ ..] if is_by_place(first) => rest,
        _ => params,
    }
}

/// Whether a function can take so many plain arguments.
pub(crate) fn func_takes<F: Facts>(rules: &Rules<F>, func: FuncId, count: usize) -> bool
    ensures { result ≡ spec.func_takes (F.facts rules.now.facts.now) func count }
{
    takes_plain(rules.facts.func(func).params.as_slice(), count)
}

/// Whether a method can, whose first parameter is taken.
pub(crate) fn bound_takes<F: Facts>(rules: &Rules<F>, func: FuncId, count: usize) -> bool
    ensures { result ≡ spec.bound_takes (F.facts rules.now.facts.now) func count }
{
    takes_plain(
        without_first(rules.facts.func(func).params.as_slice()),
        count,
    )
}

/// Whether a member of the type of `__init__` can; what is no def takes what there is.
#[tactic(auto, using(type_terms::proofs::OutOf::outs), unfolding(crate::specs::Takes::takes))]
fn takes<F: Facts>(rules: &Rules<F>, atom: &Atom, count: usize) -> bool
    ensures { result ≡ spec.takes (F.facts rules.now.facts.now) count atom.now }
{
    match atom {
        Atom::Func(func) => func_takes(rules, *func, count),
        Atom::Bound(func) => bound_takes(rules, *func, count),
        _ => true,
    }
}

/// Whether all members can.
fn all_take<F: Facts>(rules: &Rules<F>, atoms: &[Atom], count: usize) -> bool
    ensures { result ≡ list_all (spec.takes (F.facts rules.now.facts.now) count) atoms.now }
{
    for atom in atoms {
        if !takes(rules, atom, count) {
            return false;
        }
    }
    true
}

/// Whether a def of a class can as its instance has it.
#[tactic(auto, using(crate::proofs::Plain::one_func, crate::proofs::Plain::one_bound))]
fn bound_def_takes<F: Facts, T: Types>(
    alloc: Global,
    rules: &Rules<F>,
    func: FuncId,
    count: usize,
    types: &mut T,
) -> Result<bool, Stop>
    ensures value { IfOk result (λ r. r ≡ list_all (spec.takes (F.facts rules.now.facts.now) count) (spec.bound_func (table_of rules.now.classes.now (F.names rules.now.facts.now) (F.facts rules.now.facts.now) (T.assignment types.old)) func (((F.facts rules.now.facts.now).func func).kind))) }
    ensures same { T.assignment types.new ≡ T.assignment types.old }
    ensures stays { T.stays types.old types.new }
    ensures cancels { Cancels (T.seen types.old) (T.seen types.new) result }
{
    match rules.facts.func(func).kind {
        FuncKind::Property => {
            let result = call_result(alloc, rules, func, types)?;
            Ok(all_take(rules, result.as_slice(), count))
        }
        FuncKind::Method => Ok(bound_takes(rules, func, count)),
        FuncKind::Class => Ok(bound_takes(rules, func, count)),
        FuncKind::Static => Ok(func_takes(rules, func, count)),
        FuncKind::Plain => Ok(func_takes(rules, func, count)),
    }
}

/// Whether a member of the type of a class's `__init__` can as its instance has it.
#[tactic(auto, using(type_terms::proofs::OutOf::outs), unfolding(crate::specs::Takes::bound))]
fn member_takes<F: Facts, T: Types>(
    alloc: Global,
    rules: &Rules<F>,
    atom: &Atom,
    count: usize,
    types: &mut T,
) -> Result<bool, Stop>
    ensures value { IfOk result (λ r. r ≡ list_all (spec.takes (F.facts rules.now.facts.now) count) (spec.bound (table_of rules.now.classes.now (F.names rules.now.facts.now) (F.facts rules.now.facts.now) (T.assignment types.old)) atom.now)) }
    ensures same { T.assignment types.new ≡ T.assignment types.old }
    ensures stays { T.stays types.old types.new }
    ensures cancels { Cancels (T.seen types.old) (T.seen types.new) result }
{
    match atom {
        Atom::Func(func) => bound_def_takes(alloc, rules, *func, count, types),
        _ => Ok(takes(rules, atom, count)),
    }
}

/// Whether all members of the type of a class's `__init__` can.
fn members_take<F: Facts, T: Types>(
    alloc: Global,
    rules: &Rules<F>,
    members: &[Atom],
    count: usize,
    types: &mut T,
) -> Result<bool, Stop>
    ensures value { IfOk result (λ r. r ≡ list_all (spec.takes (F.facts rules.now.facts.now) count) (flat_map (spec.bound (table_of rules.now.classes.now (F.names rules.now.facts.now) (F.facts rules.now.facts.now) (T.assignment types.old))) members.now)) }
    ensures same { T.assignment types.new ≡ T.assignment types.old }
    ensures stays { T.stays types.old types.new }
    ensures cancels { Cancels (T.seen types.old) (T.seen types.new) result }
{
    for member in members {
        if !member_takes(alloc, rules, member, count, types)? {
            return Ok(false);
        }
    }
    Ok(true)
}

/// Whether a class takes anything: one with an Unknown base of its own, and a builtin one other than `object`.
fn takes_anything<F: Facts>(rules: &Rules<F>, class: ClassId) -> bool
    ensures { result ≡ spec.takes_anything rules.now.classes.now class }
{
    rules.classes.has_unknown_base(class) || is_builtin(class) && !is(class, Builtin::Object)
}

/// What decides how many arguments a class takes.
enum Init {
    /// The `__init__` that has this symbol.
    Own(SymId),
    /// A class that takes anything.
    Anything,
    /// No more than `object`'s.
    Nothing,
}

/// What decides at a class, where no class before it in an order did.
fn init_at<F: Facts>(rules: &Rules<F>, class: ClassId) -> Init
    ensures { result ≡ spec.init_at rules.now.classes.now class }
{
    if let Some(symbol) = rules.classes.own_member(class, INIT) {
        return Init::Own(symbol);
    }
    if takes_anything(rules, class) {
        Init::Anything
    } else {
        Init::Nothing
    }
}

/// What decides for a class: the first of its order that has `__init__` or takes anything.
fn init_of<F: Facts>(rules: &Rules<F>, class: ClassId) -> Init
    ensures { result ≡ spec.init_in rules.now.classes.now (order_of rules.now.classes.now class) }
{
    for owner in rules.classes.mro(class) {
        match init_at(rules, *owner) {
            Init::Nothing => {}
            decided => return decided,
        }
    }
    Init::Nothing
}

/// Whether a class of the file can.
pub(crate) fn class_takes<F: Facts, T: Types>(
    alloc: Global,
    rules: &Rules<F>,
    class: ClassId,
    count: usize,
    types: &mut T,
) -> Result<bool, Stop>
    ensures value { IfOk result (λ r. r ≡ spec.class_takes (table_of rules.now.classes.now (F.names rules.now.facts.now) (F.facts rules.now.facts.now) (T.assignment types.old)) class count) }
    ensures same { T.assignment types.new ≡ T.assignment types.old }
    ensures stays { T.stays types.old types.new }
    ensures cancels { Cancels (T.seen types.old) (T.seen types.new) result }
{
    match init_of(rules, class) {
        Init::Own(symbol) => {
            let init = types.get(alloc, Key::Sym(symbol))?;
            members_take(alloc, rules, init.members(), count, types)
        }
        Init::Anything => Ok(true),
        Init::Nothing => Ok(count == 0),
    }
}
