//! The diagnostics of lines.
ghost use Rattle.std.specs.Prelude.{◌≡◌, sum, IfOk};
ghost use Rattle.py_tokens.specs.Spans.{IsSpanIn};
ghost use Rattle.serial_session.specs.Typing.{revealed_at};
ghost use Rattle.py_base.specs.Places.{at_of};
ghost use Rattle.serial_session.specs.LineDiags.{fault_by};
ghost use Rattle.serial_session.specs.LineTypes.{atoms_of};

use crate::antecedent::Antecedent;
use crate::form::NameUse;
use crate::line_type::LineType;
use crate::no_program::NoProgram;
use diagnostics::{Message, Notice};
use py_base::{Diag, LineMap, NoMemory};
use std::alloc::Global;

/// The diagnostic that shows the type of a `reveal_type`'s argument.
#[tactic(auto, unfolding(crate::specs::TypeText::text_of))]
pub fn revealed(
    alloc: Global,
    places: &LineMap,
    read: &NameUse,
    shown: LineType,
) -> Result<Diag, NoMemory>
    requires { IsSpanIn (sum places.now) read.now.span }
    ensures { IfOk result (λ d. d ≡ revealed_at (at_of places.now) read.now (atoms_of shown.entry)) }
{
    let message = Message::RevealType(shown.atoms(alloc)?);
    match message.diagnostic(alloc, places.at(read.span), &mut NoProgram::new(alloc)) {
        Ok(diag) => Ok(diag),
        Err(_) => Err(NoMemory),
    }
}

/// The diagnostic of a read that is unbound or undefined.
pub fn fault(
    alloc: Global,
    places: &LineMap,
    read: &NameUse,
    antecedent: Option<Antecedent>,
) -> Result<Option<Diag>, NoMemory>
    requires { IsSpanIn (sum places.now) read.now.span }
    ensures { IfOk result (λ o. o ≡ fault_by (at_of places.now) read.now antecedent) }
{
    match antecedent {
        Some(Antecedent::Unbound) => {
            let notice = Notice::Unbound(read.name.copy(alloc)?);
            Ok(Some(notice.diagnostic(alloc, places.at(read.span))?))
        }
        Some(Antecedent::Undefined) => {
            let notice = Notice::UndefinedName(read.name.copy(alloc)?);
            Ok(Some(notice.diagnostic(alloc, places.at(read.span))?))
        }
        Some(Antecedent::Line(_)) | None => Ok(None),
    }
}
