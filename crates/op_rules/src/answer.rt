//! The calls: what an operation gives under the types of the keys.
ghost use Rattle.std.specs.Option.{option_copied};
ghost use Rattle.std.specs.Prelude.{◌≡◌, [], IfOk, OnOk, OnErr};
ghost use Rattle.op_rules.specs.Attributes as attributes;
ghost use Rattle.op_rules.specs.Calls as calls;
ghost use Rattle.op_rules.specs.Iterations as iterations;
ghost use Rattle.op_rules.specs.Operations.{call_at, given_type, is_fault, keys_named};
ghost use Rattle.op_rules.specs.Operators as operators;
ghost use Rattle.op_rules.specs.Steps.{IsCall, IsRule};
ghost use Rattle.op_rules.specs.Subscripts as subscripts;
ghost use Rattle.op_rules.specs.Unary as signs;
ghost use Rattle.op_rules.specs.Unpacking as unpacking;
ghost use Rattle.op_rules.specs.World.{Rule};
ghost use Rattle.value_terms.specs.Outcome.{gives};
ghost use Rattle.type_terms.specs.Asked.{AsksJust, AsksSome, Cancels};

use crate::attributes::attribute_parts;
use crate::binary_rule::binary_parts;
use crate::calls::call_parts;
use crate::iterations::iterate_parts;
use crate::parts::Parts;
use crate::rules::Program;
use crate::steps::Ruled;
use crate::subscripts::subscript_parts;
use crate::unary_rule::unary_parts;
use crate::unpacking_rule::unpack_parts;
use py_base::{NameId, NodeId, Op, Stop};
use std::alloc::Global;
use type_terms::view::Types;
use type_terms::{Atom, Type};
use value_terms::{Chains, Found, evaluate};

/// What parts say of arguments of these types.
#[tactic(auto, unfolding(crate::specs::Steps::IsCall))]
fn answer_with<P: Program, T: Types>(
    alloc: Global,
    program: &P,
    args: &[Type],
    parts: Parts,
    types: &mut T,
) -> Result<Found, Stop>
    ensures value { (rule : Rule) → IsCall (P.world program.now) args.now parts rule → IfOk result (λ found. found.ty ≡ given_type args.now rule (T.assignment types.old)) }
    ensures fails { (rule : Rule) → IsCall (P.world program.now) args.now parts rule → IfOk result (λ found. found.fails ≡ is_fault args.now rule (T.assignment types.old)) }
    ensures same { T.assignment types.new ≡ T.assignment types.old }
    ensures stays { T.stays types.old types.new }
    ensures asked { (rule : Rule) → IsCall (P.world program.now) args.now parts rule → OnOk result (AsksJust (T.asked types.old) (keys_named args.now rule (T.assignment types.old)) (T.asked types.new)) }
    ensures asked_before { (rule : Rule) → IsCall (P.world program.now) args.now parts rule → OnErr result (AsksSome (T.asked types.old) (keys_named args.now rule (T.assignment types.old)) (T.asked types.new)) }
    ensures cancels { Cancels (T.seen types.old) (T.seen types.new) result }
{
    let ruled = Ruled { program, args };
    let chains = Chains { steps: &ruled };
    evaluate(alloc, &chains, parts, types)
}

/// What parts say where there are no arguments.
#[tactic(auto, using(crate::proofs::RuleLemmas::any_arguments))]
fn answer<P: Program, T: Types>(
    alloc: Global,
    program: &P,
    parts: Parts,
    types: &mut T,
) -> Result<Found, Stop>
    ensures value { (rule : Rule) → IsRule (P.world program.now) parts rule → IfOk result (λ found. found.ty ≡ given_type [] rule (T.assignment types.old)) }
    ensures fails { (rule : Rule) → IsRule (P.world program.now) parts rule → IfOk result (λ found. found.fails ≡ is_fault [] rule (T.assignment types.old)) }
    ensures same { T.assignment types.new ≡ T.assignment types.old }
    ensures stays { T.stays types.old types.new }
    ensures asked { (rule : Rule) → IsRule (P.world program.now) parts rule → OnOk result (AsksJust (T.asked types.old) (keys_named [] rule (T.assignment types.old)) (T.asked types.new)) }
    ensures asked_before { (rule : Rule) → IsRule (P.world program.now) parts rule → OnErr result (AsksSome (T.asked types.old) (keys_named [] rule (T.assignment types.old)) (T.asked types.new)) }
    ensures cancels { Cancels (T.seen types.old) (T.seen types.new) result }
{
    answer_with(alloc, program, &[], parts, types)
}

/// What the attribute of this name of a member gives, and whether it is a fault (Python language reference,
/// 6.3.1, attribute references). The node changes no answer. `Cancelled` comes only where the count of seen
/// raises rose in this call, `NoMemory` where something could not be stored.
pub fn attribute<P: Program, T: Types>(
    alloc: Global,
    program: &P,
    atom: &Atom,
    name: NameId,
    _node: NodeId,
    types: &mut T,
) -> Result<Found, Stop>
    ensures value { IfOk result (λ found. found.ty ≡ given_type [] (attributes.attribute (P.world program.now) atom.now name) (T.assignment types.old)) }
    ensures fails { IfOk result (λ found. found.fails ≡ is_fault [] (attributes.attribute (P.world program.now) atom.now name) (T.assignment types.old)) }
    ensures same { T.assignment types.new ≡ T.assignment types.old }
    ensures stays { T.stays types.old types.new }
    ensures asked { OnOk result (AsksJust (T.asked types.old) (keys_named [] (attributes.attribute (P.world program.now) atom.now name) (T.assignment types.old)) (T.asked types.new)) }
    ensures asked_before { OnErr result (AsksSome (T.asked types.old) (keys_named [] (attributes.attribute (P.world program.now) atom.now name) (T.assignment types.old)) (T.asked types.new)) }
    ensures cancels { Cancels (T.seen types.old) (T.seen types.new) result }
{
    let parts = attribute_parts(alloc, program, atom, name)?;
    answer(alloc, program, parts, types)
}

/// What an operator with two operands gives for a member of each side, and whether it is a fault (Python
/// language reference, 6.7 to 6.9). An operator that compares is none of them and a fault. The node changes no
/// answer. `Cancelled` and `NoMemory` come as in `attribute`.
pub fn binary<P: Program, T: Types>(
    alloc: Global,
    program: &P,
    op: Op,
    left: &Atom,
    right: &Atom,
    _node: NodeId,
    types: &mut T,
) -> Result<Found, Stop>
    ensures value { IfOk result (λ found. found.ty ≡ given_type [] (operators.binary (P.world program.now) op left.now right.now) (T.assignment types.old)) }
    ensures fails { IfOk result (λ found. found.fails ≡ is_fault [] (operators.binary (P.world program.now) op left.now right.now) (T.assignment types.old)) }
    ensures same { T.assignment types.new ≡ T.assignment types.old }
    ensures stays { T.stays types.old types.new }
    ensures asked { OnOk result (AsksJust (T.asked types.old) (keys_named [] (operators.binary (P.world program.now) op left.now right.now) (T.assignment types.old)) (T.asked types.new)) }
    ensures asked_before { OnErr result (AsksSome (T.asked types.old) (keys_named [] (operators.binary (P.world program.now) op left.now right.now) (T.assignment types.old)) (T.asked types.new)) }
    ensures cancels { Cancels (T.seen types.old) (T.seen types.new) result }
{
    let parts = binary_parts(alloc, program, op, left, right)?;
    answer(alloc, program, parts, types)
}

/// What an operator with one operand gives for a member, and whether it is a fault (Python language reference,
/// 6.6): `-`, `+` and `~`. The node changes no answer. `Cancelled` and `NoMemory` come as in `attribute`.
pub fn unary<P: Program, T: Types>(
    alloc: Global,
    program: &P,
    op: Op,
    atom: &Atom,
    _node: NodeId,
    types: &mut T,
) -> Result<Found, Stop>
    ensures value { IfOk result (λ found. found.ty ≡ given_type [] (signs.unary (P.world program.now) op atom.now) (T.assignment types.old)) }
    ensures fails { IfOk result (λ found. found.fails ≡ is_fault [] (signs.unary (P.world program.now) op atom.now) (T.assignment types.old)) }
    ensures same { T.assignment types.new ≡ T.assignment types.old }
    ensures stays { T.stays types.old types.new }
    ensures asked { OnOk result (AsksJust (T.asked types.old) (keys_named [] (signs.unary (P.world program.now) op atom.now) (T.assignment types.old)) (T.asked types.new)) }
    ensures asked_before { OnErr result (AsksSome (T.asked types.old) (keys_named [] (signs.unary (P.world program.now) op atom.now) (T.assignment types.old)) (T.asked types.new)) }
    ensures cancels { Cancels (T.seen types.old) (T.seen types.new) result }
{
    let parts = unary_parts(alloc, program, op, atom)?;
    answer(alloc, program, parts, types)
}

/// What a subscript gives for a member and a member of the index, and whether it is a fault (Python language
/// reference, 6.3.2, subscriptions, and 6.3.3, slicings). An index of `None` stands for a slice. The node
/// changes no answer. `Cancelled` and `NoMemory` come as in `attribute`.
pub fn subscript<P: Program, T: Types>(
    alloc: Global,
    program: &P,
    atom: &Atom,
    index: Option<&Atom>,
    _node: NodeId,
    types: &mut T,
) -> Result<Found, Stop>
    ensures value { IfOk result (λ found. found.ty ≡ given_type [] (subscripts.subscript (P.world program.now) atom.now (option_copied index.entry)) (T.assignment types.old)) }
    ensures fails { IfOk result (λ found. found.fails ≡ is_fault [] (subscripts.subscript (P.world program.now) atom.now (option_copied index.entry)) (T.assignment types.old)) }
    ensures same { T.assignment types.new ≡ T.assignment types.old }
    ensures stays { T.stays types.old types.new }
    ensures asked { OnOk result (AsksJust (T.asked types.old) (keys_named [] (subscripts.subscript (P.world program.now) atom.now (option_copied index.entry)) (T.assignment types.old)) (T.asked types.new)) }
    ensures asked_before { OnErr result (AsksSome (T.asked types.old) (keys_named [] (subscripts.subscript (P.world program.now) atom.now (option_copied index.entry)) (T.assignment types.old)) (T.asked types.new)) }
    ensures cancels { Cancels (T.seen types.old) (T.seen types.new) result }
{
    let parts = subscript_parts(alloc, program, atom, index)?;
    answer(alloc, program, parts, types)
}

/// What iterating a member gives, and whether it is a fault (Python language reference, 8.3, the `for` statement).
/// The node changes no answer. `Cancelled` and `NoMemory` come as in `attribute`.
pub fn iterate<P: Program, T: Types>(
    alloc: Global,
    program: &P,
    atom: &Atom,
    _node: NodeId,
    types: &mut T,
) -> Result<Found, Stop>
    ensures value { IfOk result (λ found. found.ty ≡ given_type [] (iterations.iterate (P.world program.now) atom.now) (T.assignment types.old)) }
    ensures fails { IfOk result (λ found. found.fails ≡ is_fault [] (iterations.iterate (P.world program.now) atom.now) (T.assignment types.old)) }
    ensures same { T.assignment types.new ≡ T.assignment types.old }
    ensures stays { T.stays types.old types.new }
    ensures asked { OnOk result (AsksJust (T.asked types.old) (keys_named [] (iterations.iterate (P.world program.now) atom.now) (T.assignment types.old)) (T.asked types.new)) }
    ensures asked_before { OnErr result (AsksSome (T.asked types.old) (keys_named [] (iterations.iterate (P.world program.now) atom.now) (T.assignment types.old)) (T.asked types.new)) }
    ensures cancels { Cancels (T.seen types.old) (T.seen types.new) result }
{
    let ruled = Ruled { program, args: &[] };
    let parts = iterate_parts(alloc, &ruled, atom, true)?;
    answer_with(alloc, program, &[], parts, types)
}

/// What a call of a member gives with plain arguments of these types, and whether it is a fault (Python language
/// reference, 6.3.4, calls). The values that the call makes are made at the node. Whether the arguments fit is
/// no matter here. `Cancelled` and `NoMemory` come as in `attribute`.
pub fn call<P: Program, T: Types>(
    alloc: Global,
    program: &P,
    atom: &Atom,
    args: &[Type],
    node: NodeId,
    types: &mut T,
) -> Result<Found, Stop>
    ensures value { IfOk result (λ found. found.ty ≡ given_type args.now (calls.called (P.world program.now) atom.now (call_at node args.now)) (T.assignment types.old)) }
    ensures fails { IfOk result (λ found. found.fails ≡ is_fault args.now (calls.called (P.world program.now) atom.now (call_at node args.now)) (T.assignment types.old)) }
    ensures same { T.assignment types.new ≡ T.assignment types.old }
    ensures stays { T.stays types.old types.new }
    ensures asked { OnOk result (AsksJust (T.asked types.old) (keys_named args.now (calls.called (P.world program.now) atom.now (call_at node args.now)) (T.assignment types.old)) (T.asked types.new)) }
    ensures asked_before { OnErr result (AsksSome (T.asked types.old) (keys_named args.now (calls.called (P.world program.now) atom.now (call_at node args.now)) (T.assignment types.old)) (T.asked types.new)) }
    ensures cancels { Cancels (T.seen types.old) (T.seen types.new) result }
{
    let ruled = Ruled { program, args };
    let parts = call_parts(alloc, &ruled, atom, node)?;
    answer_with(alloc, program, args, parts, types)
}

/// What the target at a place of a list of so many takes from a member, no fault (Python language reference, 7.2,
/// assignment statements): the slot of a tuple of that length, Unknown of another tuple (`is_unfit`), and else
/// what iterating the member gives. `Cancelled` and `NoMemory` come as in `attribute`.
pub fn unpack<P: Program, T: Types>(
    alloc: Global,
    program: &P,
    atom: &Atom,
    targets: usize,
    place: usize,
    types: &mut T,
) -> Result<Found, Stop>
    ensures value { IfOk result (λ found. found.ty ≡ given_type [] (gives (unpacking.part (P.world program.now) atom.now targets place)) (T.assignment types.old)) }
    ensures fails { IfOk result (λ found. found.fails ≡ is_fault [] (gives (unpacking.part (P.world program.now) atom.now targets place)) (T.assignment types.old)) }
    ensures same { T.assignment types.new ≡ T.assignment types.old }
    ensures stays { T.stays types.old types.new }
    ensures asked { OnOk result (AsksJust (T.asked types.old) (keys_named [] (gives (unpacking.part (P.world program.now) atom.now targets place)) (T.assignment types.old)) (T.asked types.new)) }
    ensures asked_before { OnErr result (AsksSome (T.asked types.old) (keys_named [] (gives (unpacking.part (P.world program.now) atom.now targets place)) (T.assignment types.old)) (T.asked types.new)) }
    ensures cancels { Cancels (T.seen types.old) (T.seen types.new) result }
{
    let ruled = Ruled { program, args: &[] };
    let parts = unpack_parts(alloc, &ruled, atom, targets, place)?;
    answer_with(alloc, program, &[], parts, types)
}
