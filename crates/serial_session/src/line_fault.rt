//! The diagnostics of faulty lines.
ghost use Rattle.std.specs.Prelude.{◌≡◌, sum, IfOk};
ghost use Rattle.py_tokens.specs.Spans.{IsSpanIn};
ghost use Rattle.serial_session.specs.LineFaults.{notice_of, line_fault};
ghost use Rattle.py_base.specs.Places.{at_of};

use diagnostics::Notice;
use py_base::{Diag, LineMap, NoMemory, Span};
use py_tokens::TokenFault;
use std::alloc::Global;

/// The diagnostic of a line that has no form: by its token fault, or where it has none by the
/// statement that it isn't.
pub fn line_fault(
    alloc: Global,
    places: &LineMap,
    span: Span,
    fault: Option<TokenFault>,
) -> Result<Diag, NoMemory>
    requires { IsSpanIn (sum places.now) span }
    ensures { IfOk result (λ d. d ≡ line_fault (at_of places.now) span fault) }
{
    notice_of(fault).diagnostic(alloc, places.at(span))
}

fn notice_of(fault: Option<TokenFault>) -> Notice
    ensures { result ≡ notice_of fault }
{
    match fault {
        None => Notice::NotAStatement,
        Some(TokenFault::BadCharacter) => Notice::BadCharacter,
        Some(TokenFault::UnclosedString) => Notice::UnclosedString,
        Some(TokenFault::UnclosedBracket) => Notice::UnclosedBracket,
        Some(TokenFault::BadDedent) => Notice::BadDedent,
        Some(TokenFault::NestingLimit) => Notice::NestingLimit,
        Some(TokenFault::WideLiteral) => Notice::WideLiteral,
    }
}
