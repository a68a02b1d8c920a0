//! Diagnostics: what a list of a text consists of.
ghost use Rattle.std.specs.Prelude.{◌≡◌};
ghost use Rattle.std.proofs.Common.{rules};
ghost use Rattle.std.specs.Cmp.Rules.{comparing};
ghost use Rattle.py_base.specs.DiagOrder.{diag_cmp};
ghost use Rattle.py_base.specs.RuleName.{rule_name};

use crate::text::Text;
use std::cmp::Ordering;

/// The rule that a diagnostic comes from.
#[derive(Clone, Copy, Debug, PartialEq, Eq)]
pub enum Rule {
    Syntax,
    Limit,
    OutsideProfile,
    RevealType,
    UndefinedName,
    Unbound,
    PossiblyUnbound,
    Attribute,
    NoneAttribute,
    Operator,
    Subscript,
    Iteration,
    Unpack,
    Call,
    Arguments,
    ArgumentType,
    Assignment,
    ReturnType,
    AssertNever,
    BaseOrder,
    Annotation,
}

impl Rule {
    /// The rule's name as lists print it.
    pub fn name(self) -> &'static str
        ensures { result.now ≡ rule_name self }
    {
        match self {
            Rule::Syntax => "syntax",
            Rule::Limit => "limit",
            Rule::OutsideProfile => "outside-profile",
            Rule::RevealType => "reveal-type",
            Rule::UndefinedName => "undefined-name",
            Rule::Unbound => "unbound",
            Rule::PossiblyUnbound => "possibly-unbound",
            Rule::Attribute => "attribute",
            Rule::NoneAttribute => "none-attribute",
            Rule::Operator => "operator",
            Rule::Subscript => "subscript",
            Rule::Iteration => "iteration",
            Rule::Unpack => "unpack",
            Rule::Call => "call",
            Rule::Arguments => "arguments",
            Rule::ArgumentType => "argument-type",
            Rule::Assignment => "assignment",
            Rule::ReturnType => "return-type",
            Rule::AssertNever => "assert-never",
            Rule::BaseOrder => "base-order",
            Rule::Annotation => "annotation",
        }
    }
}

/// One diagnostic of a text. `at` has the line and column of its beginning and then those of its
/// end, counted from 0, columns in characters.
///
/// Diagnostics are ordered by place, then by the name of the rule, then by text, and are equal only
/// where all three are.
#[derive(Debug, Drop)]
pub struct Diag {
    pub at: [u32; 4],
    pub rule: Rule,
    pub text: Text,
}

impl PartialEq for Diag {
    ghost use Rattle.std.specs.Ordering.{eq_by_cmp};

    ghost eq = { eq_by_cmp diag_cmp };

    ghost laws = { Prim.search (comparing, rules) };

    fn eq(&self, other: &Diag) -> bool {
        compare(self, other).is_eq()
    }
}

impl Eq for Diag {
    ghost laws = { Prim.search (comparing, rules) };
}

impl PartialOrd for Diag {
    ghost use Rattle.std.specs.Cmp.{partial_order_from_total};
    ghost use Rattle.std.specs.Ordering.{as_partial_cmp};

    ghost partial_cmp = { as_partial_cmp diag_cmp };

    ghost laws = { partial_order_from_total (Prim.search (comparing, rules)) };

    fn partial_cmp(&self, other: &Diag) -> Option<Ordering> {
        Some(compare(self, other))
    }
}

impl Ord for Diag {
    ghost use Rattle.std.specs.Prelude.{refl};

    ghost cmp = { diag_cmp };

    ghost total = { Prim.search (comparing, rules) };

    ghost matches_partial_cmp = { λ x y. refl };

    ghost matches_eq = { λ x y. refl };

    fn cmp(&self, other: &Diag) -> Ordering {
        compare(self, other)
    }
}

fn compare(left: &Diag, right: &Diag) -> Ordering
    ensures { result ≡ diag_cmp left.now right.now }
{
    let rules = left.rule.name().cmp(right.rule.name());
    let texts = left.text.as_str().cmp(right.text.as_str());
    left.at.cmp(&right.at).then(rules).then(texts)
}
