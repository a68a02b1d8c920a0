//! Lines as they come, and as they stand in the nesting.
ghost use Rattle.std.specs.Prelude.{◌≡◌};
ghost use Rattle.py_blocks.specs.Faults.{fault_with, fault_of_kind};

use py_base::{NodeId, NodeKind};
use py_tokens::TokenFault;

/// A logical line of a text.
#[derive(Clone, Copy, Debug, PartialEq, Eq)]
pub struct BlockLine {
    /// The width of the blanks before it.
    pub column: u32,
    /// Its first token fault.
    pub fault: Option<TokenFault>,
    /// The root of the tree that its tokens spell, and `None` where none does. With a token fault it
    /// counts as `None`.
    pub tree: Option<NodeId>,
}

/// Why a line is faulty.
#[derive(Clone, Copy, Debug, PartialEq, Eq)]
pub enum LineFaultKind {
    /// It has this token fault.
    Token(TokenFault),
    /// No tree spells it.
    NotValid,
    /// It breaks a rule of blocks.
    Block,
}

/// A line of the nesting: one that stands as it is written, or an error line.
#[derive(Clone, Copy, Debug, PartialEq, Eq)]
pub struct StandingLine {
    /// The width of the blanks before it, or of those before the block that an error line stands in.
    pub column: u32,
    /// Its place among the lines of the text, counted from 0.
    pub line: usize,
    /// What is wrong with the faulty line that an error line stands for. `None` where the line isn't
    /// faulty.
    pub fault: Option<LineFaultKind>,
}

fn fault_of_kind(kind: Option<NodeKind>) -> LineFaultKind
    ensures { result ≡ fault_of_kind kind }
{
    match kind {
        Some(_) => LineFaultKind::Block,
        None => LineFaultKind::NotValid,
    }
}

/// What is told of a faulty line with this token fault and this kind of tree.
pub fn fault_with(fault: Option<TokenFault>, kind: Option<NodeKind>) -> LineFaultKind
    ensures { result ≡ fault_with fault kind }
{
    match fault {
        Some(fault) => LineFaultKind::Token(fault),
        None => fault_of_kind(kind),
    }
}
