//! Nodes of a tree: their kinds, their words, and the operators.

use crate::ids::{NameId, NodeId};
use crate::list::List;
use crate::span::Span;
use crate::text::Text;

/// The form of a node: one variant for each form of the language.
#[derive(Clone, Copy, Debug, PartialEq, Eq)]
pub enum NodeKind {
    /// What no form of the language is. No tree of a valid text has one.
    Fault,
    /// Entries side by side by commas, without brackets.
    Entries,
    /// The comma behind the last of several entries, where one stands there.
    LastComma,
    /// `*` and what is unpacked.
    Starred,
    /// `**` and what is unpacked.
    DoubleStarred,
    /// `name := value`.
    Named,
    /// `lambda` with its parameters and, as the last part, its body. A parameter without a default is
    /// its `Name` alone.
    Lambda,
    /// A plain parameter with a default: its `Name` and the default.
    Parameter,
    /// A plain parameter of a def with an annotation: its `Name`, the annotation and, if it has one,
    /// the default.
    AnnotatedParameter,
    /// `/` among parameters.
    Slash,
    /// `*` without a name among parameters.
    BareStar,
    /// `*` and a name among parameters: the `Name` and, if it has one, the annotation.
    StarParameter,
    /// `**` and a name among parameters: the same.
    DoubleStarParameter,
    /// `value if test else other`, in this order.
    Conditional,
    /// `or`.
    Or,
    /// `and`.
    And,
    /// `not`.
    Not,
    /// A chain of comparisons. The word is the operator between the first two parts; before each
    /// further one stands a `Link`.
    Comparison,
    /// An operator within a chain of comparisons, behind the first. What it compares with is the
    /// part behind it, so that a long chain is no higher than a short one.
    Link,
    /// An operator between two parts, other than the ones that have a kind of their own.
    Binary,
    /// `+`, `-` or `~` before its part.
    Unary,
    /// `await`.
    Await,
    /// A part, `.` and the name that is the word.
    Attribute,
    /// The dotted name of an import: its `Name`s in the order of the text, two or more.
    DottedName,
    /// The callee and then its arguments.
    Call,
    /// `name = value` as an argument.
    Keyword,
    /// What is subscripted, and then the entries of the index.
    Subscript,
    /// A slice: its bounds and its step, as far as they are there, with a `Colon` for each colon.
    Slice,
    /// A colon of a slice.
    Colon,
    /// A name.
    Name,
    /// An integer.
    Int,
    /// A number with a point or an exponent.
    Float,
    /// An imaginary number.
    Imaginary,
    /// Strings side by side. The parts are the fields of its f-strings.
    Strings,
    /// Bytes literals side by side.
    BytesStrings,
    /// A field of an f-string: its value and, if it has one, its format.
    Field,
    /// The format of a field; the parts are the fields in it.
    Format,
    /// `None`.
    NoneValue,
    /// `True`.
    TrueValue,
    /// `False`.
    FalseValue,
    /// `...`.
    Ellipsis,
    /// Round brackets.
    Round,
    /// Square brackets that are no index.
    Square,
    /// Curly brackets.
    Curly,
    /// `key: value` in curly brackets.
    Item,
    /// `for targets in iterable`, the first part being the targets.
    ComprehensionFor,
    /// The same behind `async`.
    AsyncComprehensionFor,
    /// `if` and its test.
    ComprehensionIf,
    /// Targets by commas, without brackets.
    Targets,
    /// `yield`, with a value or without.
    Yield,
    /// `yield from`.
    YieldFrom,
    /// Simple statements side by side by `;`. One alone is its own tree, and an expression as a
    /// statement is the tree of the expression.
    Statements,
    /// Targets, each before a `=`, and as the last part what is assigned. Several targets by commas
    /// are `Entries` here.
    Assign,
    /// `target: annotation` and, as a third part, what is assigned, if something is.
    AnnotatedAssign,
    /// A target, an operator with `=`, and a value. The word is the operator without `=`.
    AugmentedAssign,
    /// `pass`.
    Pass,
    /// `break`.
    Break,
    /// `continue`.
    Continue,
    /// `return`, with a value or without.
    Return,
    /// `raise`: what is raised and its cause, as far as they are there.
    Raise,
    /// `global` and its names.
    Global,
    /// `nonlocal` and its names.
    Nonlocal,
    /// `del` and, as the one part, its targets.
    Del,
    /// `assert`: the test and, if there is one, the message.
    Assert,
    /// `import` and what is imported: `Name`, `Attribute` of a dotted name, or `Alias`.
    Import,
    /// `from source import names`. The first part is the source: `Name`, `Attribute` of a dotted
    /// name, or `RelativeSource`. The others are `Name` or `Alias`.
    ImportFrom,
    /// `from source import *`. The one part is the source.
    ImportAll,
    /// Dots before the name of a source, and the name if there is one. Each dot is a `Dot`, and three
    /// that are one token an `Ellipsis`.
    RelativeSource,
    /// A dot before the name of a source.
    Dot,
    /// `name as other`. Both are parts.
    Alias,
    /// The statement `type`: the word `type` as a `Name` that is no name of a scope, the name that
    /// is bound, its `TypeParameters` if it has some, and the value.
    TypeAlias,
    /// Type parameters in square brackets. A plain one without a bound is its `Name` alone.
    TypeParameters,
    /// A plain type parameter with a bound: its `Name` and the bound.
    TypeParameter,
    /// `*` and a `Name` among type parameters.
    StarTypeParameter,
    /// `**` and a `Name` among type parameters.
    DoubleStarTypeParameter,
    /// Parameters of a def in round brackets. Their kinds are those of a lambda's parameters, and one
    /// with an annotation is an `AnnotatedParameter`.
    Parameters,
    /// `-> annotation` of a def.
    Result,
    /// Arguments of a class in round brackets.
    Arguments,
    /// `:` of a header and the simple statements in its line. Without parts the header ends its line.
    Suite,
    /// The header `if`: test and `Suite`.
    If,
    /// The header `elif`: test and `Suite`.
    Elif,
    /// The header `else`: `Suite`.
    Else,
    /// The header `while`: test and `Suite`.
    While,
    /// The header `for`: targets, iterable and `Suite`.
    For,
    /// The header `try`: `Suite`.
    Try,
    /// The header `except`: the class, if there is one, its `Name`, if there is one, and `Suite`.
    Except,
    /// The header `except*`: the class, its `Name`, if there is one, and `Suite`.
    ExceptStar,
    /// The header `finally`: `Suite`.
    Finally,
    /// The header `with`: items, of which those with a target are a `WithItem`, and `Suite`. A
    /// `LastComma` stands where one stands behind the last of items in round brackets.
    With,
    /// `item as target`.
    WithItem,
    /// The header `def`: its `Name`, `TypeParameters` if it has some, `Parameters`, `Result` if it has
    /// one, and `Suite`.
    Def,
    /// The header `class`: its `Name`, `TypeParameters` if it has some, `Arguments` if it has some, and
    /// `Suite`.
    Class,
    /// The header `match`: the word `match` leaves nothing, the one part is the subject.
    Match,
    /// The header `case`: pattern, guard, if there is one, and `Suite`.
    Case,
    /// `async` and a header of `def`, `for` or `with`.
    Async,
    /// `@` and an expression.
    Decorator,
    /// Patterns by commas, without brackets. In patterns a `Name` captures, but for `_`, an
    /// `Attribute` of a dotted name is a value, numbers, strings and constants are literals, `Unary` and
    /// `Binary` are numbers with a sign and complex ones, `Round` without a comma is a group, and
    /// `Round` with a comma or empty and `Square` are sequences.
    Patterns,
    /// Patterns joined by `|`.
    OrPattern,
    /// `pattern as name`. Both are parts.
    AsPattern,
    /// `*` and a `Name` in a sequence pattern, also `*_`.
    StarPattern,
    /// A mapping pattern in curly brackets.
    MappingPattern,
    /// `key: pattern` in a mapping pattern.
    PatternItem,
    /// `**` and a `Name` in a mapping pattern.
    DoubleStarPattern,
    /// A class pattern: the class and then the patterns in round brackets.
    ClassPattern,
    /// `name = pattern` in a class pattern.
    KeywordPattern,
    /// The statements of a block that stands in lines of its own, in the order of the text.
    Block,
    /// An `if` statement: its headers, each before its `Block` where it ends its line.
    IfStatement,
    /// A `while` statement: the same.
    WhileStatement,
    /// A `for` statement: the same. With `async` the first part is an `Async`.
    ForStatement,
    /// A `try` statement: the same.
    TryStatement,
    /// A `with` statement: the same. With `async` the first part is an `Async`.
    WithStatement,
    /// A def: its decorators, its header, which may be an `Async`, and its `Block` where the header
    /// ends its line. This node is the def, so that inner defs have smaller numbers.
    DefStatement,
    /// A class statement: its decorators, its header, and its `Block` where the header ends its
    /// line.
    ClassStatement,
    /// A `match` statement: its header and a `Block` of `CaseStatement`s.
    MatchStatement,
    /// A case: its header, and its `Block` where the header ends its line.
    CaseStatement,
    /// A text: its statements in their order. It is the root.
    Module,
}

/// An operator, or the conversion of an f-string's field.
#[derive(Clone, Copy, Debug, PartialEq, Eq)]
pub enum Op {
    Plus,
    Minus,
    Star,
    DoubleStar,
    Slash,
    DoubleSlash,
    Percent,
    At,
    ShiftLeft,
    ShiftRight,
    BitAnd,
    BitOr,
    BitXor,
    Tilde,
    Less,
    Greater,
    LessEqual,
    GreaterEqual,
    Equal,
    NotEqual,
    In,
    NotIn,
    Is,
    IsNot,
    /// `!r`.
    ToRepr,
    /// `!s`.
    ToStr,
    /// `!a`.
    ToAscii,
}

/// What a node says beside its kind and its parts: a value, and never a spelling.
#[derive(Debug, Drop)]
pub enum Word {
    Nothing,
    Name(NameId),
    /// The value of an integer.
    Int(i128),
    /// The value of strings, where it is known.
    Chars(Text),
    /// The value of bytes literals, where it is known.
    Bytes(List<u8>),
    Op(Op),
}

/// A node of a tree.
#[derive(Debug, Drop)]
pub struct Node {
    pub kind: NodeKind,
    /// From the first to the last of its tokens.
    pub span: Span,
    /// Its parts in the order of the text. They are older nodes of the same tree.
    pub parts: List<NodeId>,
    pub word: Word,
}
