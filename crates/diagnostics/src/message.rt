//! All messages.
ghost use Rattle.std.specs.Prelude.{◌≡◌, ◌++◌, IfOk, codes};
ghost use Rattle.std.specs.Fmt.{decimal};
ghost use Rattle.type_terms.specs.Asked.{Cancels};
ghost use Rattle.type_terms.specs.Text.{text};
ghost use Rattle.type_terms.specs.View.{meaning_of};
ghost use Rattle.diagnostics.specs.Messages.{diagnostic, message_row, not_assignable, operator_words, rule_of, text_of};

use crate::joined::{five, numbered, three};
use crate::notice::Notice;
use crate::spelling::spelling;
use py_base::node::Op;
use py_base::{Diag, NoMemory, Rule, Stop, Text};
use std::alloc::Global;
use type_terms::Type;
use type_terms::text::type_text;
use type_terms::view::View;

/// What a diagnostic can say, with the names and the types that it tells. Where only some members of a
/// type fail, its type has just these; the two types of an operation are whole.
#[derive(Drop)]
pub enum Message {
    /// What is said without a type.
    Notice(Notice),
    /// The type of the argument of `reveal_type`.
    RevealType(Type),
    /// An attribute's name, and the members that lack it.
    Attribute(Text, Type),
    /// An operator, and the types of what stands before and behind it.
    BinaryOperator(Op, Type, Type),
    /// An operator, and the members of its operand that do not have it.
    UnaryOperator(Op, Type),
    /// The members that are not subscripted.
    Subscript(Type),
    /// The members that are not iterated.
    Iteration(Type),
    /// The members that are not unpacked, and how many targets there are.
    Unpack(Type, u32),
    /// The members that are not called.
    Call(Type),
    /// The type of an argument, and that of its parameter.
    ArgumentType(Type, Type),
    /// The type of a value, and the declared one.
    Assignment(Type, Type),
    /// The type of a returned value, and the declared one.
    ReturnType(Type, Type),
    /// What is left of the argument of `assert_never`.
    AssertNever(Type),
}

impl Message {
    /// Its rule.
    pub fn rule(&self) -> Rule
        ensures { result ≡ rule_of self.now }
    {
        match self {
            Message::Notice(notice) => notice.rule(),
            Message::RevealType(_) => Rule::RevealType,
            Message::Attribute(_, _) => Rule::Attribute,
            Message::BinaryOperator(_, _, _) | Message::UnaryOperator(_, _) => Rule::Operator,
            Message::Subscript(_) => Rule::Subscript,
            Message::Iteration(_) => Rule::Iteration,
            Message::Unpack(_, _) => Rule::Unpack,
            Message::Call(_) => Rule::Call,
            Message::ArgumentType(_, _) => Rule::ArgumentType,
            Message::Assignment(_, _) => Rule::Assignment,
            Message::ReturnType(_, _) => Rule::ReturnType,
            Message::AssertNever(_) => Rule::AssertNever,
        }
    }

    /// Its text, with the types as the view shows them. `Cancelled` comes only where the count of seen
    /// raises of the view rose in this call.
    pub fn text<V: View>(&self, alloc: Global, view: &mut V) -> Result<Text, Stop>
        ensures value { IfOk result (λ said. said ≡ text_of (meaning_of (V.assignment view.old) (V.names view.old) (V.facts view.old) (V.view view.old)) self.now) }
        ensures same { meaning_of (V.assignment view.new) (V.names view.new) (V.facts view.new) (V.view view.new) ≡ meaning_of (V.assignment view.old) (V.names view.old) (V.facts view.old) (V.view view.old) }
        ensures stays { V.stays view.old view.new }
        ensures cancels { Cancels (V.seen view.old) (V.seen view.new) result }
    {
        match self {
            Message::Notice(notice) => Ok(notice.text(alloc)?),
            Message::RevealType(ty) => shown_between(alloc, "Type is \"", ty, "\"", view),
            Message::Attribute(name, owner) => {
                shown_behind(
                    alloc,
                    "Cannot access attribute \"",
                    name.as_str(),
                    "\" for \"",
                    owner,
                    view,
                )
            }
            Message::BinaryOperator(op, left, right) => {
                shown_binary(alloc, *op, left, right, view)
            }
            Message::UnaryOperator(op, operand) => shown_unary(alloc, *op, operand, view),
            Message::Subscript(ty) => shown_between(alloc, "Cannot subscript \"", ty, "\"", view),
            Message::Iteration(ty) => shown_between(alloc, "\"", ty, "\" is not iterable", view),
            Message::Unpack(ty, count) => shown_unpack(alloc, ty, *count, view),
            Message::Call(ty) => shown_between(alloc, "\"", ty, "\" is not callable", view),
            Message::ArgumentType(given, wanted) => shown_assignment(alloc, given, wanted, view),
            Message::Assignment(given, wanted) => shown_assignment(alloc, given, wanted, view),
            Message::ReturnType(given, wanted) => shown_assignment(alloc, given, wanted, view),
            Message::AssertNever(ty) => {
                shown_between(alloc, "Type \"", ty, "\" is not Never", view)
            }
        }
    }

    /// The diagnostic that says so at this place: line and column of its beginning, and then of its end.
    pub fn diagnostic<V: View>(
        &self,
        alloc: Global,
        at: [u32; 4],
        view: &mut V,
    ) -> Result<Diag, Stop>
        ensures value { IfOk result (λ d. d ≡ diagnostic at (message_row (text (meaning_of (V.assignment view.old) (V.names view.old) (V.facts view.old) (V.view view.old)) 4) self.now)) }
        ensures same { meaning_of (V.assignment view.new) (V.names view.new) (V.facts view.new) (V.view view.new) ≡ meaning_of (V.assignment view.old) (V.names view.old) (V.facts view.old) (V.view view.old) }
        ensures stays { V.stays view.old view.new }
        ensures cancels { Cancels (V.seen view.old) (V.seen view.new) result }
    {
        let text = self.text(alloc, view)?;
        let rule = self.rule();
        Ok(Diag { at, rule, text })
    }
}

/// The text of a type between two others.
fn shown_between<V: View>(
    alloc: Global,
    before: &str,
    ty: &Type,
    behind: &str,
    view: &mut V,
) -> Result<Text, Stop>
    ensures value { IfOk result (λ said. said ≡ before.now ++ text (meaning_of (V.assignment view.old) (V.names view.old) (V.facts view.old) (V.view view.old)) 4 ty.now ++ behind.now) }
    ensures same { meaning_of (V.assignment view.new) (V.names view.new) (V.facts view.new) (V.view view.new) ≡ meaning_of (V.assignment view.old) (V.names view.old) (V.facts view.old) (V.view view.old) }
    ensures stays { V.stays view.old view.new }
    ensures cancels { Cancels (V.seen view.old) (V.seen view.new) result }
{
    let shown = type_text(alloc, ty, view)?;
    Ok(three(alloc, before, shown.as_str(), behind)?)
}

/// A word in quotes, and behind it the text of a type in quotes.
fn shown_behind<V: View>(
    alloc: Global,
    before: &str,
    word: &str,
    between: &str,
    ty: &Type,
    view: &mut V,
) -> Result<Text, Stop>
    ensures value { IfOk result (λ said. said ≡ before.now ++ word.now ++ between.now ++ text (meaning_of (V.assignment view.old) (V.names view.old) (V.facts view.old) (V.view view.old)) 4 ty.now ++ codes "\"") }
    ensures same { meaning_of (V.assignment view.new) (V.names view.new) (V.facts view.new) (V.view view.new) ≡ meaning_of (V.assignment view.old) (V.names view.old) (V.facts view.old) (V.view view.old) }
    ensures stays { V.stays view.old view.new }
    ensures cancels { Cancels (V.seen view.old) (V.seen view.new) result }
{
    let shown = type_text(alloc, ty, view)?;
    Ok(five(alloc, before, word, between, shown.as_str(), "\"")?)
}

/// That a type is not unpacked into so many targets.
fn shown_unpack<V: View>(alloc: Global, ty: &Type, count: u32, view: &mut V) -> Result<Text, Stop>
    ensures value { IfOk result (λ said. said ≡ codes "Cannot unpack \"" ++ text (meaning_of (V.assignment view.old) (V.names view.old) (V.facts view.old) (V.view view.old)) 4 ty.now ++ codes "\" into " ++ decimal count ++ codes " targets") }
    ensures same { meaning_of (V.assignment view.new) (V.names view.new) (V.facts view.new) (V.view view.new) ≡ meaning_of (V.assignment view.old) (V.names view.old) (V.facts view.old) (V.view view.old) }
    ensures stays { V.stays view.old view.new }
    ensures cancels { Cancels (V.seen view.old) (V.seen view.new) result }
{
    let shown = type_text(alloc, ty, view)?;
    Ok(numbered(
        alloc,
        "Cannot unpack \"",
        shown.as_str(),
        "\" into ",
        count,
        " targets",
    )?)
}

/// That an operator is not there for a type.
fn shown_unary<V: View>(alloc: Global, op: Op, operand: &Type, view: &mut V) -> Result<Text, Stop>
    ensures value { IfOk result (λ said. said ≡ operator_words op ++ text (meaning_of (V.assignment view.old) (V.names view.old) (V.facts view.old) (V.view view.old)) 4 operand.now ++ codes "\"") }
    ensures same { meaning_of (V.assignment view.new) (V.names view.new) (V.facts view.new) (V.view view.new) ≡ meaning_of (V.assignment view.old) (V.names view.old) (V.facts view.old) (V.view view.old) }
    ensures stays { V.stays view.old view.new }
    ensures cancels { Cancels (V.seen view.old) (V.seen view.new) result }
{
    let before = operator_words(alloc, op)?;
    shown_between(alloc, before.as_str(), operand, "\"", view)
}

/// The texts of two types.
fn both_shown<V: View>(
    alloc: Global,
    left: &Type,
    right: &Type,
    view: &mut V,
) -> Result<(Text, Text), Stop>
    ensures value { IfOk result (λ shown. (shown.0 ≡ text (meaning_of (V.assignment view.old) (V.names view.old) (V.facts view.old) (V.view view.old)) 4 left.now) × (shown.1 ≡ text (meaning_of (V.assignment view.old) (V.names view.old) (V.facts view.old) (V.view view.old)) 4 right.now)) }
    ensures same { meaning_of (V.assignment view.new) (V.names view.new) (V.facts view.new) (V.view view.new) ≡ meaning_of (V.assignment view.old) (V.names view.old) (V.facts view.old) (V.view view.old) }
    ensures stays { V.stays view.old view.new }
    ensures cancels { Cancels (V.seen view.old) (V.seen view.new) result }
{
    let first = type_text(alloc, left, view)?;
    let second = type_text(alloc, right, view)?;
    Ok((first, second))
}

/// The texts of two types, with a text before each, and a quote behind them.
fn shown_pair<V: View>(
    alloc: Global,
    before: &str,
    between: &str,
    left: &Type,
    right: &Type,
    view: &mut V,
) -> Result<Text, Stop>
    ensures value { IfOk result (λ said. said ≡ before.now ++ text (meaning_of (V.assignment view.old) (V.names view.old) (V.facts view.old) (V.view view.old)) 4 left.now ++ between.now ++ text (meaning_of (V.assignment view.old) (V.names view.old) (V.facts view.old) (V.view view.old)) 4 right.now ++ codes "\"") }
    ensures same { meaning_of (V.assignment view.new) (V.names view.new) (V.facts view.new) (V.view view.new) ≡ meaning_of (V.assignment view.old) (V.names view.old) (V.facts view.old) (V.view view.old) }
    ensures stays { V.stays view.old view.new }
    ensures cancels { Cancels (V.seen view.old) (V.seen view.new) result }
{
    let (first, second) = both_shown(alloc, left, right, view)?;
    Ok(five(
        alloc,
        before,
        first.as_str(),
        between,
        second.as_str(),
        "\"",
    )?)
}

/// That a type is not assignable to another.
fn shown_assignment<V: View>(
    alloc: Global,
    given: &Type,
    wanted: &Type,
    view: &mut V,
) -> Result<Text, Stop>
    ensures value { IfOk result (λ said. said ≡ not_assignable (text (meaning_of (V.assignment view.old) (V.names view.old) (V.facts view.old) (V.view view.old)) 4 given.now) (text (meaning_of (V.assignment view.old) (V.names view.old) (V.facts view.old) (V.view view.old)) 4 wanted.now)) }
    ensures same { meaning_of (V.assignment view.new) (V.names view.new) (V.facts view.new) (V.view view.new) ≡ meaning_of (V.assignment view.old) (V.names view.old) (V.facts view.old) (V.view view.old) }
    ensures stays { V.stays view.old view.new }
    ensures cancels { Cancels (V.seen view.old) (V.seen view.new) result }
{
    shown_pair(
        alloc,
        "\"",
        "\" is not assignable to \"",
        given,
        wanted,
        view,
    )
}

/// That an operator is not there for two types.
fn shown_binary<V: View>(
    alloc: Global,
    op: Op,
    left: &Type,
    right: &Type,
    view: &mut V,
) -> Result<Text, Stop>
    ensures value { IfOk result (λ said. said ≡ operator_words op ++ text (meaning_of (V.assignment view.old) (V.names view.old) (V.facts view.old) (V.view view.old)) 4 left.now ++ codes "\" and \"" ++ text (meaning_of (V.assignment view.old) (V.names view.old) (V.facts view.old) (V.view view.old)) 4 right.now ++ codes "\"") }
    ensures same { meaning_of (V.assignment view.new) (V.names view.new) (V.facts view.new) (V.view view.new) ≡ meaning_of (V.assignment view.old) (V.names view.old) (V.facts view.old) (V.view view.old) }
    ensures stays { V.stays view.old view.new }
    ensures cancels { Cancels (V.seen view.old) (V.seen view.new) result }
{
    let before = operator_words(alloc, op)?;
    shown_pair(alloc, before.as_str(), "\" and \"", left, right, view)
}

/// What stands before the types of an operator's operands.
fn operator_words(alloc: Global, op: Op) -> Result<Text, NoMemory>
    ensures { IfOk result (λ said. said ≡ operator_words op) }
{
    three(
        alloc,
        "Operator \"",
        spelling(op),
        "\" is not supported for \"",
    )
}
