//! How operators are spelled.
ghost use Rattle.std.specs.Prelude.{◌≡◌};
ghost use Rattle.diagnostics.specs.Spelling as spec;

use py_base::node::Op;

/// The spelling of an operator (Python language reference, "Operators").
pub(crate) fn spelling(op: Op) -> &'static str
    ensures { result.now ≡ spec.spelling op }
{
    match op {
        Op::Plus => "+",
        Op::Minus => "-",
        Op::Star => "*",
        Op::DoubleStar => "**",
        Op::Slash => "/",
        Op::DoubleSlash => "//",
        Op::Percent => "%",
        Op::At => "@",
        Op::ShiftLeft => "<<",
        Op::ShiftRight => ">>",
        Op::BitAnd => "&",
        Op::BitOr => "|",
        Op::BitXor => "^",
        Op::Tilde => "~",
        Op::Less => "<",
        Op::Greater => ">",
        Op::LessEqual => "<=",
        Op::GreaterEqual => ">=",
        Op::Equal => "==",
        Op::NotEqual => "!=",
        Op::In => "in",
        Op::NotIn => "not in",
        Op::Is => "is",
        Op::IsNot => "is not",
        Op::ToRepr => "!r",
        Op::ToStr => "!s",
        Op::ToAscii => "!a",
    }
}
