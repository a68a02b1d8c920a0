//! What the nesting sees of a logical line.
ghost use Rattle.std.specs.Prelude.{◌≡◌};
ghost use Rattle.py_blocks.specs.Lines.{is_error, is_unread, is_clause};
ghost use Rattle.py_blocks.specs.Rules;
ghost use Rattle.py_blocks.specs.Nesting;

use py_base::NodeKind;

/// What a logical line is, by its tree.
#[derive(Clone, Copy, Debug, PartialEq, Eq)]
pub enum LineKind {
    /// Simple statements, or a header that no rule names, as that of a `with`.
    Plain,
    If,
    Elif,
    Else,
    /// `while` or `for`.
    Loop,
    Try,
    Except,
    ExceptStar,
    Finally,
    Match,
    Case,
    Def,
    Class,
    Decorator,
    /// A line with a token fault, or without a tree.
    Faulty,
    /// An error line, which stands for a faulty line and those that it takes in.
    Error,
}

/// A line as it stands in its text, or an error line.
#[derive(Clone, Copy, Debug, PartialEq, Eq)]
pub struct Line {
    /// The width of the blanks before it, or of those before the block that an error line stands in.
    pub column: u32,
    pub kind: LineKind,
    /// Whether it is a header that ends its line.
    pub opens: bool,
    /// Whether it is an `except` without a class.
    pub bare: bool,
    /// Whether `return` stands in it.
    pub returns: bool,
    /// Whether `break` or `continue` stands in it.
    pub jumps: bool,
    /// Whether its parameters, its captures and the names that it declares are as they should be.
    pub fits: bool,
    /// Its place among the lines of the text, counted from 0.
    pub place: usize,
}

/// What a line is by the kind of its header.
pub fn line_kind(kind: Option<NodeKind>) -> LineKind
    ensures { result ≡ Nesting.line_kind kind }
{
    match kind {
        Some(kind) => kind_read(kind),
        None => LineKind::Faulty,
    }
}

fn kind_read(kind: NodeKind) -> LineKind
    ensures { result ≡ Nesting.kind_read kind }
{
    match kind {
        NodeKind::If => LineKind::If,
        NodeKind::Elif => LineKind::Elif,
        NodeKind::Else => LineKind::Else,
        NodeKind::While | NodeKind::For => LineKind::Loop,
        NodeKind::Try => LineKind::Try,
        NodeKind::Except => LineKind::Except,
        NodeKind::ExceptStar => LineKind::ExceptStar,
        NodeKind::Finally => LineKind::Finally,
        NodeKind::Match => LineKind::Match,
        NodeKind::Case => LineKind::Case,
        NodeKind::Def => LineKind::Def,
        NodeKind::Class => LineKind::Class,
        NodeKind::Decorator => LineKind::Decorator,
        _ => LineKind::Plain,
    }
}

pub fn is_error(kind: LineKind) -> bool
    ensures { result ≡ is_error kind }
{
    matches!(kind, LineKind::Error)
}

pub fn is_unread(kind: LineKind) -> bool
    ensures { result ≡ is_unread kind }
{
    matches!(kind, LineKind::Faulty)
}

pub fn is_clause(kind: LineKind) -> bool
    ensures { result ≡ is_clause kind }
{
    matches!(
        kind,
        LineKind::Elif
            | LineKind::Else
            | LineKind::Except
            | LineKind::ExceptStar
            | LineKind::Finally
    )
}

pub fn is_case(kind: LineKind) -> bool
    ensures { result ≡ Rules.is_case kind }
{
    matches!(kind, LineKind::Case)
}

pub fn is_match(kind: LineKind) -> bool
    ensures { result ≡ Rules.is_match kind }
{
    matches!(kind, LineKind::Match)
}

pub fn is_try(kind: LineKind) -> bool
    ensures { result ≡ Rules.is_try kind }
{
    matches!(kind, LineKind::Try)
}

pub fn is_handler(kind: LineKind) -> bool
    ensures { result ≡ Rules.is_handler kind }
{
    matches!(kind, LineKind::Except | LineKind::ExceptStar)
}

pub fn is_finally(kind: LineKind) -> bool
    ensures { result ≡ Rules.is_finally kind }
{
    matches!(kind, LineKind::Finally)
}

/// Whether it is what a `try` needs one of.
pub fn closes_try(kind: LineKind) -> bool
    ensures { result ≡ Rules.closes_try kind }
{
    matches!(
        kind,
        LineKind::Except | LineKind::ExceptStar | LineKind::Finally
    )
}

pub fn is_decorator(kind: LineKind) -> bool
    ensures { result ≡ Rules.is_decorator kind }
{
    matches!(kind, LineKind::Decorator)
}

pub fn is_decorated(kind: LineKind) -> bool
    ensures { result ≡ Rules.is_decorated kind }
{
    matches!(kind, LineKind::Decorator | LineKind::Def | LineKind::Class)
}

pub fn is_def(kind: LineKind) -> bool
    ensures { result ≡ Rules.is_def kind }
{
    matches!(kind, LineKind::Def)
}

pub fn is_scope(kind: LineKind) -> bool
    ensures { result ≡ Rules.is_scope kind }
{
    matches!(kind, LineKind::Def | LineKind::Class)
}

pub fn is_loop(kind: LineKind) -> bool
    ensures { result ≡ Rules.is_loop kind }
{
    matches!(kind, LineKind::Loop)
}
