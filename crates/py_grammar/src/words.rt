//! The words that the grammar is written in.

/// What a token is to the grammar. Tokens that stand in the same places are one terminal.
#[derive(Clone, Copy, Debug, PartialEq, Eq)]
pub enum Terminal {
    /// A name.
    Name,
    /// The name `match`.
    MatchWord,
    /// The name `case`.
    CaseWord,
    /// The name `type`.
    TypeWord,
    /// The name `_`.
    Underscore,
    /// An integer below 2^127.
    Int,
    /// A number with a point or an exponent.
    Float,
    /// An imaginary number.
    Imaginary,
    /// A string literal.
    Str,
    /// A bytes literal of ASCII characters.
    BytesStr,
    /// The beginning of an f-string.
    FStart,
    /// Text of an f-string or of a format.
    FText,
    /// `!r`, `!s` or `!a`.
    FConversion,
    /// The end of an f-string.
    FEnd,
    /// `False`.
    FalseWord,
    /// `None`.
    NoneWord,
    /// `True`.
    TrueWord,
    /// `and`.
    And,
    /// `as`.
    As,
    /// `assert`.
    Assert,
    /// `async`.
    Async,
    /// `await`.
    Await,
    /// `break`.
    Break,
    /// `class`.
    Class,
    /// `continue`.
    Continue,
    /// `def`.
    Def,
    /// `del`.
    Del,
    /// `elif`.
    Elif,
    /// `else`.
    Else,
    /// `except`.
    Except,
    /// `finally`.
    Finally,
    /// `for`.
    For,
    /// `from`.
    From,
    /// `global`.
    Global,
    /// `if`.
    If,
    /// `import`.
    Import,
    /// `in`.
    In,
    /// `is`.
    Is,
    /// `lambda`.
    Lambda,
    /// `nonlocal`.
    Nonlocal,
    /// `not`.
    Not,
    /// `or`.
    Or,
    /// `pass`.
    Pass,
    /// `raise`.
    Raise,
    /// `return`.
    Return,
    /// `try`.
    Try,
    /// `while`.
    While,
    /// `with`.
    With,
    /// `yield`.
    Yield,
    /// `+`.
    Plus,
    /// `-`.
    Minus,
    /// `~`.
    Tilde,
    /// `*`.
    Star,
    /// `**`.
    DoubleStar,
    /// `/`.
    Slash,
    /// `//` or `%`.
    Times,
    /// `@`.
    At,
    /// `<<` or `>>`.
    Shift,
    /// `&`.
    Ampersand,
    /// `|`.
    Bar,
    /// `^`.
    Caret,
    /// `:=`.
    Walrus,
    /// `<`, `>`, `<=`, `>=`, `==` or `!=`.
    Compare,
    /// `(`.
    OpenRound,
    /// `)`.
    CloseRound,
    /// `[`.
    OpenSquare,
    /// `]`.
    CloseSquare,
    /// `{`.
    OpenCurly,
    /// `}`.
    CloseCurly,
    /// `,`.
    Comma,
    /// `:`.
    Colon,
    /// `;`.
    Semicolon,
    /// `.`.
    Dot,
    /// `...`.
    Ellipsis,
    /// `->`.
    Arrow,
    /// `=`.
    Assign,
    /// An operator with `=`, as `+=`.
    AugmentedAssign,
    /// A token that stands in no line.
    Other,
    /// What stands behind the last token.
    End,
}

/// A form of the grammar: what a tree can be. Several forms may have one kind of node, where they
/// differ by the places in which they stand (Python 3.12 language reference, sections 6 to 8).
#[derive(Clone, Copy, Debug, PartialEq, Eq)]
pub enum Form {
    /// Entries by commas.
    Entries,
    /// `name := value`.
    Named,
    /// `lambda` with parameters and a body.
    Lambda,
    /// `value if test else other`.
    Conditional,
    /// `or`.
    Or,
    /// `and`.
    And,
    /// `not`.
    Not,
    /// A chain of comparisons.
    Comparison,
    /// `|`.
    BitOr,
    /// `^`.
    BitXor,
    /// `&`.
    BitAnd,
    /// `<<` or `>>`.
    Shift,
    /// `+` or `-` between two parts.
    Sum,
    /// `*`, `/`, `//`, `%` or `@`.
    Product,
    /// `+`, `-` or `~` before a part.
    Unary,
    /// `**` between two parts.
    Power,
    /// `await`.
    Await,
    /// A part, `.` and a name.
    Attribute,
    /// A part and arguments.
    Call,
    /// A part and an index.
    Subscript,
    /// A name other than the two below.
    Name,
    /// The name `type`.
    TypeName,
    /// The name `_`, which captures nothing in a pattern.
    Underscore,
    /// An integer.
    Int,
    /// A number with a point or an exponent.
    Float,
    /// An imaginary number.
    Imaginary,
    /// Strings side by side.
    Strings,
    /// Bytes literals side by side.
    BytesStrings,
    /// `None`.
    NoneValue,
    /// `True`.
    TrueValue,
    /// `False`.
    FalseValue,
    /// `...`.
    Ellipsis,
    /// Round brackets.
    Round,
    /// Square brackets that are no index.
    Square,
    /// Curly brackets.
    Curly,
    /// `*` among entries and targets.
    Starred,
    /// `**` in curly brackets.
    DoubleStarred,
    /// `*` among arguments and in an index.
    StarArgument,
    /// `**` among arguments.
    DoubleStarArgument,
    /// `name = value` as an argument.
    Keyword,
    /// `key: value` in curly brackets.
    Item,
    /// `for targets in iterable`.
    ComprehensionFor,
    /// `async for targets in iterable`.
    AsyncComprehensionFor,
    /// `if` and a test in a comprehension.
    ComprehensionIf,
    /// Targets by commas, without brackets.
    Targets,
    /// The entries of an index by commas, of which one stands there at least.
    IndexTuple,
    /// A slice that begins with its first colon.
    Slice,
    /// A slice that begins with its lower bound.
    SliceFrom,
    /// An operator within a chain of comparisons, behind the first.
    Link,
    /// `name = default` among parameters.
    Parameter,
    /// `/` among parameters.
    SlashParameter,
    /// `*` among parameters of a lambda, with a name or without.
    StarParameter,
    /// `**` and a name among parameters of a lambda.
    DoubleStarParameter,
    /// `yield` or `yield from`.
    Yield,
    /// A field of an f-string.
    Field,
    /// The format of a field.
    Format,
    /// Simple statements by `;`.
    Statements,
    /// Targets, each before a `=`, and a value.
    Assign,
    /// `target: annotation`, with a value or without.
    AnnotatedAssign,
    /// A target, an operator with `=`, and a value.
    AugmentedAssign,
    /// `pass`.
    Pass,
    /// `break`.
    Break,
    /// `continue`.
    Continue,
    /// `return`, with a value or without.
    Return,
    /// `raise`.
    Raise,
    /// `global` and names.
    Global,
    /// `nonlocal` and names.
    Nonlocal,
    /// `del` and targets.
    Del,
    /// `assert`.
    Assert,
    /// `import` and what is imported.
    Import,
    /// `from source import` and names or `*`.
    ImportFrom,
    /// Names by dots in an import.
    DottedName,
    /// Dots, and a name behind them or none.
    RelativeSource,
    /// `name as other` behind `import`.
    Alias,
    /// `name as other` behind `from .. import`.
    FromAlias,
    /// The statement `type`.
    TypeAlias,
    /// Type parameters in square brackets.
    TypeParameters,
    /// A type parameter with its bound.
    TypeParameter,
    /// `*` and a name among type parameters.
    StarTypeParameter,
    /// `**` and a name among type parameters.
    DoubleStarTypeParameter,
    /// Parameters of a def in round brackets.
    Parameters,
    /// `name: annotation` among parameters of a def, with a default or without.
    AnnotatedParameter,
    /// `*` among parameters of a def, with a name or without.
    DefStarParameter,
    /// `**` and a name among parameters of a def.
    DefDoubleStarParameter,
    /// `->` and the annotation of a result.
    Result,
    /// Arguments of a class in round brackets.
    Arguments,
    /// `:` and the simple statements behind it.
    Suite,
    /// The header `if`.
    If,
    /// The header `elif`.
    Elif,
    /// The header `else`.
    Else,
    /// The header `while`.
    While,
    /// The header `for`.
    For,
    /// The header `try`.
    Try,
    /// The header `except`, or `except*`.
    Except,
    /// The header `finally`.
    Finally,
    /// The header `with`, its items outside brackets.
    With,
    /// The header `with`, its items in round brackets.
    BracketedWith,
    /// `item as target`.
    WithItem,
    /// The header `def`.
    Def,
    /// The header `class`.
    Class,
    /// The header `match`.
    Match,
    /// The header `case`.
    Case,
    /// `async` before a header.
    Async,
    /// `async` before a `with` that has its items in round brackets.
    BracketedAsync,
    /// `@` and an expression.
    Decorator,
    /// `-` and a number in a pattern.
    SignedNumber,
    /// A real and an imaginary number in a pattern.
    ComplexNumber,
    /// Names by dots in a pattern.
    PatternAttribute,
    /// Round brackets in a pattern.
    PatternRound,
    /// Square brackets in a pattern.
    PatternSquare,
    /// Patterns by commas, without brackets.
    Patterns,
    /// `*` and a name in a sequence pattern.
    StarPattern,
    /// `**` and a name in a mapping pattern.
    DoubleStarPattern,
    /// A mapping pattern.
    MappingPattern,
    /// `key: pattern` in a mapping pattern.
    PatternItem,
    /// A class and patterns in round brackets.
    ClassPattern,
    /// `name = pattern` in a class pattern.
    KeywordPattern,
    /// Patterns by `|`.
    OrPattern,
    /// `pattern as name`.
    AsPattern,
}

/// What the place of a part asks of it.
#[derive(Clone, Copy, Debug, PartialEq, Eq)]
pub enum Need {
    /// Level 0 or at least 2.
    Expressions,
    /// At least level 1.
    Named,
    /// At least level 2.
    Expression,
    /// At least level 3.
    Disjunction,
    /// At least level 4.
    Conjunction,
    /// At least level 5.
    Inversion,
    /// At least level 6.
    Comparison,
    /// At least level 7.
    BitOr,
    /// At least level 8.
    BitXor,
    /// At least level 9.
    BitAnd,
    /// At least level 10.
    Shift,
    /// At least level 11.
    Sum,
    /// At least level 12.
    Term,
    /// At least level 13.
    Factor,
    /// At least level 14.
    Power,
    /// At least level 15.
    Await,
    /// At least level 16.
    Primary,
    /// Level 17.
    Atom,
    /// No form: the levels above 17.
    Nothing,
    /// A name.
    Identifier,
    /// An entry side by side with others.
    Entry,
    /// A starred entry.
    StarredEntry,
    /// What `*` unpacks among entries and targets.
    StarOperand,
    /// An entry in brackets.
    Element,
    /// An entry in curly brackets.
    CurlyEntry,
    /// `**` among entries.
    DoubleStarredEntry,
    /// A further entry in curly brackets.
    CurlyElement,
    /// A plain or a keyword argument.
    Argument,
    /// `*` or `**` among arguments.
    UnpackedArgument,
    /// A further argument.
    AnyArgument,
    /// What stands in the brackets of an index.
    Index,
    /// An entry of an index.
    IndexEntry,
    /// One target.
    Target,
    /// One target, or several by commas.
    TargetList,
    /// The first clause of a comprehension.
    Clause,
    /// A further clause of a comprehension.
    FurtherClause,
    /// A parameter of a lambda.
    Parameter,
    /// An operator within a chain of comparisons.
    Link,
    /// A yield.
    YieldValue,
    /// A field of an f-string.
    Field,
    /// The format of a field.
    Format,
    /// A line, where no keyword reading of it counts first.
    Line,
    /// A line with a soft keyword or with bracketed items.
    KeywordLine,
    /// A simple statement.
    SimpleStatement,
    /// A target of an assignment, or what is assigned.
    AssignedPart,
    /// What is assigned.
    AssignedValue,
    /// A name, an attribute or a subscript.
    Reference,
    /// What is imported without `as`: a name, or names by dots.
    DottedName,
    /// Where names are imported from.
    Source,
    /// What is imported.
    ImportItem,
    /// A name that is imported from a source.
    FromItem,
    /// The word `type` of its statement.
    TypeKeyword,
    /// Type parameters in brackets.
    TypeParameters,
    /// A type parameter.
    TypeParameter,
    /// What stands from the colon of a header on.
    Suite,
    /// An item of a `with`.
    WithEntry,
    /// Parameters in brackets.
    Parameters,
    /// A parameter of a def.
    DefParameter,
    /// The annotation of a result.
    Result,
    /// Arguments of a class in brackets.
    Arguments,
    /// A header behind `async`.
    AsyncHeader,
    /// A `with` that has its items in round brackets.
    BracketedWith,
    /// The subject of a `match`.
    Subject,
    /// A number without a sign.
    Number,
    /// What stands before an imaginary number.
    RealNumber,
    /// An imaginary number.
    ImaginaryNumber,
    /// A name in a pattern, or names by dots.
    PatternName,
    /// A pattern without `|` and `as`.
    ClosedPattern,
    /// A pattern without `as`.
    Alternatives,
    /// A pattern.
    Pattern,
    /// A pattern in a sequence.
    PatternEntry,
    /// `*` and a name in a sequence pattern.
    StarPattern,
    /// The whole pattern of a case.
    CasePattern,
    /// A name that a pattern captures.
    CapturedName,
    /// The key of a mapping pattern.
    PatternKey,
    /// The rest of a mapping pattern.
    DoubleStarPattern,
    /// An entry of a mapping pattern.
    PatternItem,
    /// An entry of a class pattern.
    ClassEntry,
}

/// How far a form has come: what may stand there next. `Last..` stands before the last part of a
/// form, `..First` behind an opening bracket or word, `..Next` behind a comma, `..More` behind an
/// entry.
#[derive(Clone, Copy, Debug, PartialEq, Eq)]
pub enum State {
    Done,
    LastExpression,
    LastDisjunction,
    LastConjunction,
    LastInversion,
    LastBitOr,
    LastBitXor,
    LastBitAnd,
    LastShift,
    LastSum,
    LastTerm,
    LastFactor,
    LastPrimary,
    LastStarOperand,
    LastName,
    LastIdentifier,
    EntryNext,
    EntryMore,
    TargetNext,
    TargetMore,
    ConditionalTest,
    ConditionalElse,
    Compared,
    ComparedNot,
    ComparedIs,
    ComparedMore,
    LinkOperand,
    LinkNot,
    LinkIs,
    CallFirst,
    CallAfterFirst,
    CallNext,
    CallMore,
    RoundClauses,
    IndexFirst,
    IndexClose,
    IndexNext,
    IndexMore,
    LambdaNext,
    LambdaMore,
    StarParameterName,
    RoundFirst,
    RoundClose,
    RoundAfterFirst,
    RoundNext,
    RoundMore,
    SquareFirst,
    SquareAfterFirst,
    SquareClauses,
    SquareNext,
    SquareMore,
    CurlyFirst,
    CurlyAfterFirst,
    CurlyClauses,
    CurlyNext,
    CurlyMore,
    AsyncFor,
    ForTargets,
    ForIn,
    SliceFirst,
    SliceSecond,
    SliceStep,
    YieldFirst,
    FieldFirst,
    FieldTail,
    FieldAssign,
    FieldConverted,
    FieldClose,
    FormatNext,
    FBody,
    StringsMore,
    BytesMore,
    StatementNext,
    StatementMore,
    AssignNext,
    AssignMore,
    AnnotationFirst,
    AnnotationMore,
    LastAssigned,
    ReturnFirst,
    RaiseFirst,
    RaiseMore,
    NameNext,
    NameMore,
    LastTargets,
    AssertFirst,
    AssertMore,
    ImportNext,
    ImportMore,
    FromSource,
    FromImport,
    FromFirst,
    FromNext,
    FromMore,
    FromBracketed,
    FromBracketedMore,
    FromBracketedNext,
    DotsMore,
    DottedNext,
    DottedMore,
    AliasParameters,
    AliasAssign,
    TypeParametersFirst,
    TypeParametersNext,
    TypeParametersMore,
    SuiteFirst,
    SuiteNext,
    SuiteMore,
    LastSuite,
    HeaderTest,
    LoopTargets,
    LoopIn,
    LoopOver,
    ExceptFirst,
    ExceptClass,
    ExceptMore,
    ExceptName,
    WithNext,
    WithMore,
    BracketedWithFirst,
    BracketedItem,
    BracketedItemNext,
    BracketedItemMore,
    LastTarget,
    DefName,
    DefParameters,
    DefBracket,
    DefResult,
    ParametersNext,
    ParametersMore,
    ParameterAnnotation,
    ParameterDefault,
    DefStarName,
    DefDoubleStarName,
    StarAnnotation,
    ClassName,
    ClassParameters,
    ClassBracket,
    AsyncFirst,
    BracketedAsyncFirst,
    LastNamed,
    MatchSubject,
    MatchColon,
    CaseFirst,
    CaseGuard,
    LastNumber,
    LastImaginary,
    LastPattern,
    LastCapturedName,
    PatternRoundFirst,
    PatternRoundStar,
    PatternRoundNext,
    PatternRoundMore,
    PatternSquareNext,
    PatternSquareMore,
    PatternsNext,
    PatternsMore,
    MappingNext,
    MappingMore,
    MappingRest,
    MappingClose,
    ClassPatternNext,
    ClassPatternMore,
    OrNext,
    OrMore,
}

/// A form that begins with a token of its own, and the state behind it.
#[derive(Clone, Copy, Debug, PartialEq, Eq)]
pub struct Opening {
    pub form: Form,
    pub after: State,
}

/// A form that begins with a part that meets a need, then has a token, and the state behind it.
#[derive(Clone, Copy, Debug, PartialEq, Eq)]
pub struct Joint {
    pub left: Need,
    pub form: Form,
    pub after: State,
}

/// A token of a form, and the state behind it.
#[derive(Clone, Copy, Debug, PartialEq, Eq)]
pub struct Edge {
    pub word: Terminal,
    pub after: State,
}

/// A part of a form by what it has to meet, and the state behind it.
#[derive(Clone, Copy, Debug, PartialEq, Eq)]
pub struct Place {
    pub need: Need,
    pub after: State,
}
