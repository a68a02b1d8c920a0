//! The names that the rules speak of, by their places among the names of the language.
ghost use Rattle.std.specs.Prelude.{◌≡◌};
ghost use Rattle.op_rules.specs.Names as spec;

use py_base::{NameId, Op};

/// `name`.
pub(crate) const NAME: NameId = NameId(281);

/// `value`.
pub(crate) const VALUE: NameId = NameId(339);

/// `cast`.
pub(crate) const CAST: NameId = NameId(194);

/// `assert_never`.
pub(crate) const ASSERT_NEVER: NameId = NameId(185);

/// `reveal_type`.
pub(crate) const REVEAL_TYPE: NameId = NameId(304);

/// `override`.
pub(crate) const OVERRIDE: NameId = NameId(287);

/// `final`.
pub(crate) const FINAL: NameId = NameId(226);

/// `abstractmethod`.
pub(crate) const ABSTRACTMETHOD: NameId = NameId(175);

/// `__call__`.
pub(crate) const CALL: NameId = NameId(122);

/// `__getitem__`.
pub(crate) const GETITEM: NameId = NameId(132);

/// `__iter__`.
pub(crate) const ITER: NameId = NameId(137);

/// `__next__`.
pub(crate) const NEXT: NameId = NameId(149);

/// `__getattr__`.
pub(crate) const GETATTR: NameId = NameId(131);

/// `__slots__`.
pub(crate) const SLOTS: NameId = NameId(168);

/// The name of an operator's method on the left side, as `__add__`.
pub(crate) fn left_method(op: Op) -> Option<NameId>
    ensures { result ≡ spec.left_method op }
{
    match op {
        Op::Plus => Some(NameId(118)),
        Op::Minus => Some(NameId(170)),
        Op::Star => Some(NameId(145)),
        Op::DoubleStar => Some(NameId(153)),
        Op::Slash => Some(NameId(171)),
        Op::DoubleSlash => Some(NameId(129)),
        Op::Percent => Some(NameId(144)),
        Op::At => Some(NameId(143)),
        Op::ShiftLeft => Some(NameId(141)),
        Op::ShiftRight => Some(NameId(164)),
        Op::BitAnd => Some(NameId(119)),
        Op::BitOr => Some(NameId(150)),
        Op::BitXor => Some(NameId(172)),
        _ => None,
    }
}

/// The name of its method on the right side, as `__radd__`.
pub(crate) fn right_method(op: Op) -> Option<NameId>
    ensures { result ≡ spec.right_method op }
{
    match op {
        Op::Plus => Some(NameId(154)),
        Op::Minus => Some(NameId(165)),
        Op::Star => Some(NameId(160)),
        Op::DoubleStar => Some(NameId(162)),
        Op::Slash => Some(NameId(166)),
        Op::DoubleSlash => Some(NameId(156)),
        Op::Percent => Some(NameId(159)),
        Op::At => Some(NameId(158)),
        Op::ShiftLeft => Some(NameId(157)),
        Op::ShiftRight => Some(NameId(163)),
        Op::BitAnd => Some(NameId(155)),
        Op::BitOr => Some(NameId(161)),
        Op::BitXor => Some(NameId(167)),
        _ => None,
    }
}

/// The name of the method of an operator with one operand, as `__neg__`.
pub(crate) fn one_method(op: Op) -> Option<NameId>
    ensures { result ≡ spec.one_method op }
{
    match op {
        Op::Minus => Some(NameId(147)),
        Op::Plus => Some(NameId(152)),
        Op::Tilde => Some(NameId(136)),
        _ => None,
    }
}
