//! The grammar of a line as one table: what each token begins and goes on with, and what each form
//! has where. `specs/Table.antt` has the same rows as a definition.

ghost use Rattle.std.specs.Prelude.{◌≡◌, ◌==◌, find};
ghost use Rattle.py_grammar.specs.Table.{number, form_number, is_among, plain, level, mark, besides, beneath, takes_level, meets, opens, joins, edges, edge_at, edge, expression_places, line_places, or_else, places, may_end_expression, may_end_statement, may_end_header, is_last};
ghost use Rattle.py_grammar.specs.Parse.{reaches};

use crate::words::{Edge, Form, Joint, Need, Opening, Place, State, Terminal};

// The rows of the table: a form and the state behind its first token.
macro_rules! begins {
    ($form:ident, $after:ident) => {
        Opening { form: Form::$form, after: State::$after }
    };
}

// What the part in front has to meet, a form, and the state behind its token.
macro_rules! goes_on {
    ($left:ident, $form:ident, $after:ident) => {
        Joint { left: Need::$left, form: Form::$form, after: State::$after }
    };
}

// A token and the state behind it.
macro_rules! word {
    ($word:ident, $after:ident) => {
        Edge { word: Terminal::$word, after: State::$after }
    };
}

// What a part has to meet, and the state behind it.
macro_rules! part {
    ($need:ident, $after:ident) => {
        Place { need: Need::$need, after: State::$after }
    };
}

// Forms by their names.
macro_rules! forms {
    ($($form:ident),*) => {
        &[$(Form::$form),*]
    };
}

// The forms of a name, behind others.
macro_rules! names {
    ($($form:ident),*) => {
        forms!($($form,)* Name, TypeName, Underscore)
    };
}

// The simple statements that are no expressions, behind others.
macro_rules! statements {
    ($($form:ident),*) => {
        forms!($($form,)* Yield, Assign, AnnotatedAssign, AugmentedAssign, Pass, Break, Continue, Return, Raise, Global, Nonlocal, Del, Assert, Import, ImportFrom, TypeAlias)
    };
}

// The patterns that are keys of a mapping, behind others.
macro_rules! pattern_keys {
    ($($form:ident),*) => {
        forms!($($form,)* Int, Float, Imaginary, Strings, BytesStrings, NoneValue, TrueValue, FalseValue, SignedNumber, ComplexNumber, PatternAttribute)
    };
}

// The patterns without `|` and `as`, behind others.
macro_rules! patterns {
    ($($form:ident),*) => {
        pattern_keys!($($form,)* PatternRound, PatternSquare, MappingPattern, ClassPattern, Name, TypeName, Underscore)
    };
}

/// The level of a form, from 0 for entries by commas to 17 for names and brackets. `None` for what
/// is no expression of its own, as a starred entry.
pub fn level_of(form: Form) -> Option<u8>
    ensures { result ≡ level form }
{
    let level = match form {
        Form::Entries => 0,
        Form::Named => 1,
        Form::Lambda => 2,
        Form::Conditional => 2,
        Form::Or => 3,
        Form::And => 4,
        Form::Not => 5,
        Form::Comparison => 6,
        Form::BitOr => 7,
        Form::BitXor => 8,
        Form::BitAnd => 9,
        Form::Shift => 10,
        Form::Sum => 11,
        Form::Product => 12,
        Form::Unary => 13,
        Form::Power => 14,
        Form::Await => 15,
        Form::Attribute => 16,
        Form::Call => 16,
        Form::Subscript => 16,
        Form::Name => 17,
        Form::TypeName => 17,
        Form::Underscore => 17,
        Form::Int => 17,
        Form::Float => 17,
        Form::Imaginary => 17,
        Form::Strings => 17,
        Form::BytesStrings => 17,
        Form::NoneValue => 17,
        Form::TrueValue => 17,
        Form::FalseValue => 17,
        Form::Ellipsis => 17,
        Form::Round => 17,
        Form::Square => 17,
        Form::Curly => 17,
        _ => return None,
    };
    Some(level)
}

/// The level that a place asks. `None` where it takes no form by its level.
pub fn mark_of(need: Need) -> Option<u8>
    ensures { result ≡ mark need }
{
    let mark = match need {
        Need::Expressions => 0,
        Need::Named => 1,
        Need::Expression => 2,
        Need::Disjunction => 3,
        Need::Conjunction => 4,
        Need::Inversion => 5,
        Need::Comparison => 6,
        Need::BitOr => 7,
        Need::BitXor => 8,
        Need::BitAnd => 9,
        Need::Shift => 10,
        Need::Sum => 11,
        Need::Term => 12,
        Need::Factor => 13,
        Need::Power => 14,
        Need::Await => 15,
        Need::Primary => 16,
        Need::Atom => 17,
        Need::Entry => 2,
        Need::StarOperand => 7,
        Need::Element => 1,
        Need::CurlyEntry => 1,
        Need::CurlyElement => 1,
        Need::Argument => 1,
        Need::AnyArgument => 1,
        Need::Index => 1,
        Need::IndexEntry => 1,
        Need::Target => 7,
        Need::TargetList => 7,
        Need::Line => 0,
        Need::SimpleStatement => 0,
        Need::AssignedPart => 0,
        Need::AssignedValue => 0,
        Need::WithEntry => 2,
        Need::Subject => 0,
        _ => return None,
    };
    Some(mark)
}

/// The forms that a place takes whatever their level.
fn forms_besides(need: Need) -> &'static [Form]
    ensures { result.now ≡ besides need }
{
    match need {
        Need::Identifier => names!(),
        Need::Entry => forms!(Starred),
        Need::StarredEntry => forms!(Starred),
        Need::StarOperand => forms!(Starred),
        Need::Element => forms!(Starred),
        Need::CurlyEntry => forms!(Item),
        Need::DoubleStarredEntry => forms!(DoubleStarred),
        Need::CurlyElement => forms!(Item, Starred, DoubleStarred),
        Need::Argument => forms!(Keyword),
        Need::UnpackedArgument => forms!(StarArgument, DoubleStarArgument),
        Need::AnyArgument => forms!(Keyword, StarArgument, DoubleStarArgument),
        Need::Index => forms!(StarArgument, Slice, SliceFrom, IndexTuple),
        Need::IndexEntry => forms!(StarArgument, Slice, SliceFrom),
        Need::Target => forms!(Starred),
        Need::TargetList => forms!(Starred, Targets),
        Need::Clause => forms!(ComprehensionFor, AsyncComprehensionFor),
        Need::FurtherClause => forms!(ComprehensionFor, AsyncComprehensionFor, ComprehensionIf),
        Need::Parameter => names!(
            Parameter,
            SlashParameter,
            StarParameter,
            DoubleStarParameter
        ),
        Need::Link => forms!(Link),
        Need::YieldValue => forms!(Yield),
        Need::Field => forms!(Field),
        Need::Format => forms!(Format),
        Need::Line => statements!(
            Statements, If, Elif, Else, While, For, Try, Except, Finally, With, Def, Class, Async,
            Decorator
        ),
        Need::KeywordLine => forms!(Match, Case, BracketedWith, BracketedAsync),
        Need::SimpleStatement => statements!(),
        Need::AssignedPart => forms!(Starred, Yield),
        Need::AssignedValue => forms!(Yield),
        Need::Reference => names!(Attribute, Subscript),
        Need::DottedName => names!(DottedName),
        Need::Source => names!(DottedName, RelativeSource),
        Need::ImportItem => names!(DottedName, Alias),
        Need::FromItem => names!(FromAlias),
        Need::TypeKeyword => forms!(TypeName),
        Need::TypeParameters => forms!(TypeParameters),
        Need::TypeParameter => names!(TypeParameter, StarTypeParameter, DoubleStarTypeParameter),
        Need::Suite => forms!(Suite),
        Need::WithEntry => forms!(WithItem),
        Need::Parameters => forms!(Parameters),
        Need::DefParameter => names!(
            Parameter,
            AnnotatedParameter,
            SlashParameter,
            DefStarParameter,
            DefDoubleStarParameter
        ),
        Need::Result => forms!(Result),
        Need::Arguments => forms!(Arguments),
        Need::AsyncHeader => forms!(For, With, Def),
        Need::BracketedWith => forms!(BracketedWith),
        Need::Subject => forms!(Named),
        Need::Number => forms!(Int, Float, Imaginary),
        Need::RealNumber => forms!(Int, Float, SignedNumber),
        Need::ImaginaryNumber => forms!(Imaginary),
        Need::PatternName => names!(PatternAttribute),
        Need::ClosedPattern => patterns!(),
        Need::Alternatives => patterns!(OrPattern),
        Need::Pattern => patterns!(OrPattern, AsPattern),
        Need::PatternEntry => patterns!(OrPattern, AsPattern, StarPattern),
        Need::StarPattern => forms!(StarPattern),
        Need::CasePattern => patterns!(OrPattern, AsPattern, Patterns),
        Need::CapturedName => forms!(Name, TypeName),
        Need::PatternKey => pattern_keys!(),
        Need::DoubleStarPattern => forms!(DoubleStarPattern),
        Need::PatternItem => forms!(PatternItem),
        Need::ClassEntry => patterns!(OrPattern, AsPattern, KeywordPattern),
        _ => &[],
    }
}

/// The forms at the left edge of what a place takes, on the way to a form that it takes.
fn forms_beneath(need: Need) -> &'static [Form]
    ensures { result.now ≡ beneath need }
{
    match need {
        Need::Expressions => forms!(Starred),
        Need::Line => forms!(Starred),
        Need::SimpleStatement => forms!(Starred),
        Need::AssignedValue => forms!(Starred),
        Need::Reference => forms!(
            Call,
            Int,
            Float,
            Imaginary,
            Strings,
            BytesStrings,
            NoneValue,
            TrueValue,
            FalseValue,
            Ellipsis,
            Round,
            Square,
            Curly
        ),
        Need::Subject => forms!(Starred),
        Need::CasePattern => forms!(StarPattern),
        Need::PatternKey => names!(),
        Need::PatternItem => pattern_keys!(Name, TypeName, Underscore),
        _ => &[],
    }
}

fn number_of_form(form: Form) -> u8
    ensures { result ≡ form_number form }
{
    form as u8
}

fn is_one_of(form: Form, forms: &[Form]) -> bool
    ensures { result ≡ is_among form forms.now }
{
    forms
        .iter()
        .any(|other| number_of_form(*other) == number_of_form(form))
}

/// Whether a place that asks a level takes a form of a level. Level 0 takes level 0 and from 2 on,
/// any other takes its own and higher ones.
pub fn is_taken(mark: u8, level: Option<u8>) -> bool
    ensures { result ≡ takes_level mark level }
{
    match level {
        None => false,
        Some(level) if mark == 0 => level == 0 || level >= 2,
        Some(level) => mark <= level,
    }
}

/// Whether a place takes a form.
pub fn does_meet(need: Need, form: Form) -> bool
    ensures { result ≡ meets need form }
{
    match mark_of(need) {
        None => is_one_of(form, forms_besides(need)),
        Some(mark) => { is_taken(mark, level_of(form)) || is_one_of(form, forms_besides(need)) }
    }
}

/// Whether a place takes a form, or the form stands at the left edge of one that it takes.
pub fn does_reach(need: Need, form: Form) -> bool
    ensures { result ≡ reaches need form }
{
    does_meet(need, form) || is_one_of(form, forms_beneath(need))
}

/// The forms that begin with a token.
pub fn openings(word: Terminal) -> &'static [Opening]
    ensures { result.now ≡ opens word }
{
    match word {
        Terminal::Name => &[begins!(Name, Done)],
        Terminal::MatchWord => &[begins!(Name, Done), begins!(Match, MatchSubject)],
        Terminal::CaseWord => &[begins!(Name, Done), begins!(Case, CaseFirst)],
        Terminal::TypeWord => &[begins!(TypeName, Done)],
        Terminal::Underscore => &[begins!(Underscore, Done)],
        Terminal::Int => &[begins!(Int, Done)],
        Terminal::Float => &[begins!(Float, Done)],
        Terminal::Imaginary => &[begins!(Imaginary, Done)],
        Terminal::Str => &[begins!(Strings, StringsMore)],
        Terminal::BytesStr => &[begins!(BytesStrings, BytesMore)],
        Terminal::FStart => &[begins!(Strings, FBody)],
        Terminal::FalseWord => &[begins!(FalseValue, Done)],
        Terminal::NoneWord => &[begins!(NoneValue, Done)],
        Terminal::TrueWord => &[begins!(TrueValue, Done)],
        Terminal::Assert => &[begins!(Assert, AssertFirst)],
        Terminal::Async => &[
            begins!(AsyncComprehensionFor, AsyncFor),
            begins!(Async, AsyncFirst),
            begins!(BracketedAsync, BracketedAsyncFirst),
        ],
        Terminal::Await => &[begins!(Await, LastPrimary)],
        Terminal::Break => &[begins!(Break, Done)],
        Terminal::Class => &[begins!(Class, ClassName)],
        Terminal::Continue => &[begins!(Continue, Done)],
        Terminal::Def => &[begins!(Def, DefName)],
        Terminal::Del => &[begins!(Del, LastTargets)],
        Terminal::Elif => &[begins!(Elif, HeaderTest)],
        Terminal::Else => &[begins!(Else, LastSuite)],
        Terminal::Except => &[begins!(Except, ExceptFirst)],
        Terminal::Finally => &[begins!(Finally, LastSuite)],
        Terminal::For => &[
            begins!(ComprehensionFor, ForTargets),
            begins!(For, LoopTargets),
        ],
        Terminal::From => &[begins!(ImportFrom, FromSource)],
        Terminal::Global => &[begins!(Global, NameNext)],
        Terminal::If => &[
            begins!(ComprehensionIf, LastDisjunction),
            begins!(If, HeaderTest),
        ],
        Terminal::Import => &[begins!(Import, ImportNext)],
        Terminal::In => &[begins!(Link, Done)],
        Terminal::Is => &[begins!(Link, LinkIs)],
        Terminal::Lambda => &[begins!(Lambda, LambdaNext)],
        Terminal::Nonlocal => &[begins!(Nonlocal, NameNext)],
        Terminal::Not => &[begins!(Not, LastInversion), begins!(Link, LinkNot)],
        Terminal::Pass => &[begins!(Pass, Done)],
        Terminal::Raise => &[begins!(Raise, RaiseFirst)],
        Terminal::Return => &[begins!(Return, ReturnFirst)],
        Terminal::Try => &[begins!(Try, LastSuite)],
        Terminal::While => &[begins!(While, HeaderTest)],
        Terminal::With => &[
            begins!(With, WithNext),
            begins!(BracketedWith, BracketedWithFirst),
        ],
        Terminal::Yield => &[begins!(Yield, YieldFirst)],
        Terminal::Plus => &[begins!(Unary, LastFactor)],
        Terminal::Minus => &[
            begins!(Unary, LastFactor),
            begins!(SignedNumber, LastNumber),
        ],
        Terminal::Tilde => &[begins!(Unary, LastFactor)],
        Terminal::Star => &[
            begins!(Starred, LastStarOperand),
            begins!(StarArgument, LastExpression),
            begins!(StarParameter, StarParameterName),
            begins!(DefStarParameter, DefStarName),
            begins!(StarTypeParameter, LastIdentifier),
            begins!(StarPattern, LastIdentifier),
        ],
        Terminal::DoubleStar => &[
            begins!(DoubleStarred, LastBitOr),
            begins!(DoubleStarArgument, LastExpression),
            begins!(DoubleStarParameter, LastIdentifier),
            begins!(DefDoubleStarParameter, DefDoubleStarName),
            begins!(DoubleStarTypeParameter, LastIdentifier),
            begins!(DoubleStarPattern, LastCapturedName),
        ],
        Terminal::Slash => &[begins!(SlashParameter, Done)],
        Terminal::At => &[begins!(Decorator, LastNamed)],
        Terminal::Compare => &[begins!(Link, Done)],
        Terminal::OpenRound => &[
            begins!(Round, RoundFirst),
            begins!(Parameters, ParametersNext),
            begins!(Arguments, CallFirst),
            begins!(PatternRound, PatternRoundFirst),
        ],
        Terminal::OpenSquare => &[
            begins!(Square, SquareFirst),
            begins!(TypeParameters, TypeParametersFirst),
            begins!(PatternSquare, PatternSquareNext),
        ],
        Terminal::OpenCurly => &[
            begins!(Curly, CurlyFirst),
            begins!(Field, FieldFirst),
            begins!(MappingPattern, MappingNext),
        ],
        Terminal::Colon => &[
            begins!(Slice, SliceFirst),
            begins!(Format, FormatNext),
            begins!(Suite, SuiteFirst),
        ],
        Terminal::Dot => &[begins!(RelativeSource, DotsMore)],
        Terminal::Ellipsis => &[begins!(Ellipsis, Done), begins!(RelativeSource, DotsMore)],
        Terminal::Arrow => &[begins!(Result, LastExpression)],
        _ => &[],
    }
}

/// The forms that begin with a part and then a token.
pub fn joints(word: Terminal) -> &'static [Joint]
    ensures { result.now ≡ joins word }
{
    match word {
        Terminal::Name => &[goes_on!(TypeKeyword, TypeAlias, AliasParameters)],
        Terminal::MatchWord => &[goes_on!(TypeKeyword, TypeAlias, AliasParameters)],
        Terminal::CaseWord => &[goes_on!(TypeKeyword, TypeAlias, AliasParameters)],
        Terminal::TypeWord => &[goes_on!(TypeKeyword, TypeAlias, AliasParameters)],
        Terminal::Underscore => &[goes_on!(TypeKeyword, TypeAlias, AliasParameters)],
        Terminal::And => &[goes_on!(Conjunction, And, LastInversion)],
        Terminal::As => &[
            goes_on!(DottedName, Alias, LastIdentifier),
            goes_on!(Identifier, FromAlias, LastIdentifier),
            goes_on!(Expression, WithItem, LastTarget),
            goes_on!(Alternatives, AsPattern, LastCapturedName),
        ],
        Terminal::If => &[goes_on!(Disjunction, Conditional, ConditionalTest)],
        Terminal::In => &[goes_on!(BitOr, Comparison, Compared)],
        Terminal::Is => &[goes_on!(BitOr, Comparison, ComparedIs)],
        Terminal::Not => &[goes_on!(BitOr, Comparison, ComparedNot)],
        Terminal::Or => &[goes_on!(Disjunction, Or, LastConjunction)],
        Terminal::Plus => &[
            goes_on!(Sum, Sum, LastTerm),
            goes_on!(RealNumber, ComplexNumber, LastImaginary),
        ],
        Terminal::Minus => &[
            goes_on!(Sum, Sum, LastTerm),
            goes_on!(RealNumber, ComplexNumber, LastImaginary),
        ],
        Terminal::Star => &[goes_on!(Term, Product, LastFactor)],
        Terminal::DoubleStar => &[goes_on!(Await, Power, LastFactor)],
        Terminal::Slash => &[goes_on!(Term, Product, LastFactor)],
        Terminal::Times => &[goes_on!(Term, Product, LastFactor)],
        Terminal::At => &[goes_on!(Term, Product, LastFactor)],
        Terminal::Shift => &[goes_on!(Shift, Shift, LastSum)],
        Terminal::Ampersand => &[goes_on!(BitAnd, BitAnd, LastShift)],
        Terminal::Bar => &[
            goes_on!(BitOr, BitOr, LastBitXor),
            goes_on!(ClosedPattern, OrPattern, OrNext),
        ],
        Terminal::Caret => &[goes_on!(BitXor, BitXor, LastBitAnd)],
        Terminal::Walrus => &[goes_on!(Identifier, Named, LastExpression)],
        Terminal::Compare => &[goes_on!(BitOr, Comparison, Compared)],
        Terminal::OpenRound => &[
            goes_on!(Primary, Call, CallFirst),
            goes_on!(PatternName, ClassPattern, ClassPatternNext),
        ],
        Terminal::OpenSquare => &[goes_on!(Primary, Subscript, IndexFirst)],
        Terminal::Comma => &[
            goes_on!(Entry, Entries, EntryNext),
            goes_on!(Target, Targets, TargetNext),
            goes_on!(IndexEntry, IndexTuple, IndexNext),
            goes_on!(PatternEntry, Patterns, PatternsNext),
        ],
        Terminal::Colon => &[
            goes_on!(Expression, Item, LastExpression),
            goes_on!(Expression, SliceFrom, SliceFirst),
            goes_on!(Reference, AnnotatedAssign, AnnotationFirst),
            goes_on!(Identifier, TypeParameter, LastExpression),
            goes_on!(Identifier, AnnotatedParameter, ParameterAnnotation),
            goes_on!(PatternKey, PatternItem, LastPattern),
        ],
        Terminal::Semicolon => &[goes_on!(SimpleStatement, Statements, StatementNext)],
        Terminal::Dot => &[
            goes_on!(Primary, Attribute, LastName),
            goes_on!(Identifier, DottedName, DottedNext),
            goes_on!(PatternName, PatternAttribute, LastName),
        ],
        Terminal::Assign => &[
            goes_on!(Identifier, Keyword, LastExpression),
            goes_on!(Identifier, Parameter, LastExpression),
            goes_on!(AssignedPart, Assign, AssignNext),
            goes_on!(Identifier, KeywordPattern, LastPattern),
        ],
        Terminal::AugmentedAssign => &[goes_on!(Reference, AugmentedAssign, LastAssigned)],
        _ => &[],
    }
}

// The tokens that a form has at a state.
fn edges_of(state: State) -> &'static [Edge]
    ensures { result.now ≡ edges state }
{
    match state {
        State::LastName => &[word!(Name, Done)],
        State::EntryMore => &[word!(Comma, EntryNext)],
        State::TargetMore => &[word!(Comma, TargetNext)],
        State::ConditionalElse => &[word!(Else, LastExpression)],
        State::ComparedNot => &[word!(In, Compared)],
        State::ComparedIs => &[word!(Not, Compared)],
        State::LinkNot => &[word!(In, Done)],
        State::LinkIs => &[word!(Not, Done)],
        State::CallFirst => &[word!(CloseRound, Done)],
        State::CallAfterFirst => &[word!(Comma, CallNext), word!(CloseRound, Done)],
        State::CallNext => &[word!(CloseRound, Done)],
        State::CallMore => &[word!(Comma, CallNext), word!(CloseRound, Done)],
        State::RoundClauses => &[word!(CloseRound, Done)],
        State::IndexClose => &[word!(CloseSquare, Done)],
        State::IndexMore => &[word!(Comma, IndexNext)],
        State::LambdaNext => &[word!(Colon, LastExpression)],
        State::LambdaMore => &[word!(Comma, LambdaNext), word!(Colon, LastExpression)],
        State::StarParameterName => &[word!(Name, Done)],
        State::RoundFirst => &[word!(CloseRound, Done)],
        State::RoundClose => &[word!(CloseRound, Done)],
        State::RoundAfterFirst => &[word!(Comma, RoundNext), word!(CloseRound, Done)],
        State::RoundNext => &[word!(CloseRound, Done)],
        State::RoundMore => &[word!(Comma, RoundNext), word!(CloseRound, Done)],
        State::SquareFirst => &[word!(CloseSquare, Done)],
        State::SquareAfterFirst => &[word!(Comma, SquareNext), word!(CloseSquare, Done)],
        State::SquareClauses => &[word!(CloseSquare, Done)],
        State::SquareNext => &[word!(CloseSquare, Done)],
        State::SquareMore => &[word!(Comma, SquareNext), word!(CloseSquare, Done)],
        State::CurlyFirst => &[word!(CloseCurly, Done)],
        State::CurlyAfterFirst => &[word!(Comma, CurlyNext), word!(CloseCurly, Done)],
        State::CurlyClauses => &[word!(CloseCurly, Done)],
        State::CurlyNext => &[word!(CloseCurly, Done)],
        State::CurlyMore => &[word!(Comma, CurlyNext), word!(CloseCurly, Done)],
        State::AsyncFor => &[word!(For, ForTargets)],
        State::ForIn => &[word!(In, LastDisjunction)],
        State::SliceFirst => &[word!(Colon, SliceStep)],
        State::SliceSecond => &[word!(Colon, SliceStep)],
        State::YieldFirst => &[word!(From, LastExpression)],
        State::FieldTail => &[
            word!(Assign, FieldAssign),
            word!(FConversion, FieldConverted),
            word!(CloseCurly, Done),
        ],
        State::FieldAssign => &[word!(FConversion, FieldConverted), word!(CloseCurly, Done)],
        State::FieldConverted => &[word!(CloseCurly, Done)],
        State::FieldClose => &[word!(CloseCurly, Done)],
        State::FormatNext => &[word!(FText, FormatNext)],
        State::FBody => &[word!(FText, FBody), word!(FEnd, StringsMore)],
        State::StringsMore => &[word!(Str, StringsMore), word!(FStart, FBody)],
        State::BytesMore => &[word!(BytesStr, BytesMore)],
        State::StatementMore => &[word!(Semicolon, StatementNext)],
        State::AssignMore => &[word!(Assign, AssignNext)],
        State::AnnotationMore => &[word!(Assign, LastAssigned)],
        State::RaiseMore => &[word!(From, LastExpression)],
        State::NameMore => &[word!(Comma, NameNext)],
        State::AssertMore => &[word!(Comma, LastExpression)],
        State::ImportMore => &[word!(Comma, ImportNext)],
        State::FromImport => &[word!(Import, FromFirst)],
        State::FromFirst => &[word!(Star, Done), word!(OpenRound, FromBracketed)],
        State::FromMore => &[word!(Comma, FromNext)],
        State::FromBracketedMore => &[word!(Comma, FromBracketedNext), word!(CloseRound, Done)],
        State::FromBracketedNext => &[word!(CloseRound, Done)],
        State::DotsMore => &[word!(Dot, DotsMore), word!(Ellipsis, DotsMore)],
        State::DottedNext => &[word!(Name, DottedMore)],
        State::DottedMore => &[word!(Dot, DottedNext)],
        State::AliasParameters => &[word!(Assign, LastExpression)],
        State::AliasAssign => &[word!(Assign, LastExpression)],
        State::TypeParametersNext => &[word!(CloseSquare, Done)],
        State::TypeParametersMore => &[word!(Comma, TypeParametersNext), word!(CloseSquare, Done)],
        State::SuiteMore => &[word!(Semicolon, SuiteNext)],
        State::LoopIn => &[word!(In, LoopOver)],
        State::ExceptFirst => &[word!(Star, ExceptClass)],
        State::ExceptMore => &[word!(As, ExceptName)],
        State::WithMore => &[word!(Comma, WithNext)],
        State::BracketedWithFirst => &[word!(OpenRound, BracketedItem)],
        State::BracketedItemNext => &[word!(CloseRound, LastSuite)],
        State::BracketedItemMore => &[
            word!(Comma, BracketedItemNext),
            word!(CloseRound, LastSuite),
        ],
        State::ParametersNext => &[word!(CloseRound, Done)],
        State::ParametersMore => &[word!(Comma, ParametersNext), word!(CloseRound, Done)],
        State::ParameterDefault => &[word!(Assign, LastExpression)],
        State::DefStarName => &[word!(Name, StarAnnotation)],
        State::DefDoubleStarName => &[word!(Name, StarAnnotation)],
        State::StarAnnotation => &[word!(Colon, LastExpression)],
        State::MatchColon => &[word!(Colon, Done)],
        State::CaseGuard => &[word!(If, HeaderTest)],
        State::PatternRoundFirst => &[word!(CloseRound, Done)],
        State::PatternRoundStar => &[word!(Comma, PatternRoundNext)],
        State::PatternRoundNext => &[word!(CloseRound, Done)],
        State::PatternRoundMore => &[word!(Comma, PatternRoundNext), word!(CloseRound, Done)],
        State::PatternSquareNext => &[word!(CloseSquare, Done)],
        State::PatternSquareMore => &[word!(Comma, PatternSquareNext), word!(CloseSquare, Done)],
        State::PatternsMore => &[word!(Comma, PatternsNext)],
        State::MappingNext => &[word!(CloseCurly, Done)],
        State::MappingMore => &[word!(Comma, MappingNext), word!(CloseCurly, Done)],
        State::MappingRest => &[word!(Comma, MappingClose), word!(CloseCurly, Done)],
        State::MappingClose => &[word!(CloseCurly, Done)],
        State::ClassPatternNext => &[word!(CloseRound, Done)],
        State::ClassPatternMore => &[word!(Comma, ClassPatternNext), word!(CloseRound, Done)],
        State::OrMore => &[word!(Bar, OrNext)],
        _ => &[],
    }
}

/// The number of a terminal, by which terminals are compared.
pub fn number_of(word: Terminal) -> u8
    ensures { result ≡ number word }
{
    word as u8
}

fn edge_in(edges: &[Edge], word: Terminal) -> Option<Edge>
    ensures { result ≡ find (λ e. number e.word == number word) edges.now }
{
    edges
        .iter()
        .copied()
        .find(|e| number_of(e.word) == number_of(word))
}

/// The terminal as a word of a form: there a soft keyword is a name.
pub fn plain_of(word: Terminal) -> Terminal
    ensures { result ≡ plain word }
{
    match word {
        Terminal::MatchWord => Terminal::Name,
        Terminal::CaseWord => Terminal::Name,
        Terminal::TypeWord => Terminal::Name,
        Terminal::Underscore => Terminal::Name,
        _ => word,
    }
}

fn edge_at(state: State, word: Terminal) -> Option<State>
    ensures { result ≡ edge_at state word }
{
    match edge_in(edges_of(state), word) {
        Some(found) => Some(found.after),
        None => None,
    }
}

/// The state behind a token at a state. `None` where the form has no such token there.
pub fn edge_of(state: State, word: Terminal) -> Option<State>
    ensures { result ≡ edge state word }
{
    edge_at(state, plain_of(word))
}

// The parts that may stand at a state of an expression.
fn expression_places_of(state: State) -> &'static [Place]
    ensures { result.now ≡ expression_places state }
{
    match state {
        State::LastExpression => &[part!(Expression, Done)],
        State::LastDisjunction => &[part!(Disjunction, Done)],
        State::LastConjunction => &[part!(Conjunction, Done)],
        State::LastInversion => &[part!(Inversion, Done)],
        State::LastBitOr => &[part!(BitOr, Done)],
        State::LastBitXor => &[part!(BitXor, Done)],
        State::LastBitAnd => &[part!(BitAnd, Done)],
        State::LastShift => &[part!(Shift, Done)],
        State::LastSum => &[part!(Sum, Done)],
        State::LastTerm => &[part!(Term, Done)],
        State::LastFactor => &[part!(Factor, Done)],
        State::LastPrimary => &[part!(Primary, Done)],
        State::LastStarOperand => &[part!(StarOperand, Done)],
        State::LastIdentifier => &[part!(Identifier, Done)],
        State::EntryNext => &[part!(Entry, EntryMore)],
        State::TargetNext => &[part!(Target, TargetMore)],
        State::ConditionalTest => &[part!(Disjunction, ConditionalElse)],
        State::Compared => &[part!(BitOr, ComparedMore)],
        State::ComparedIs => &[part!(BitOr, ComparedMore)],
        State::ComparedMore => &[part!(Link, LinkOperand)],
        State::LinkOperand => &[part!(BitOr, ComparedMore)],
        State::CallFirst => &[
            part!(UnpackedArgument, CallMore),
            part!(Argument, CallAfterFirst),
        ],
        State::CallAfterFirst => &[part!(Clause, RoundClauses)],
        State::CallNext => &[part!(AnyArgument, CallMore)],
        State::RoundClauses => &[part!(FurtherClause, RoundClauses)],
        State::IndexFirst => &[part!(Index, IndexClose)],
        State::IndexNext => &[part!(IndexEntry, IndexMore)],
        State::LambdaNext => &[part!(Parameter, LambdaMore)],
        State::RoundFirst => &[
            part!(YieldValue, RoundClose),
            part!(StarredEntry, RoundMore),
            part!(Named, RoundAfterFirst),
        ],
        State::RoundAfterFirst => &[part!(Clause, RoundClauses)],
        State::RoundNext => &[part!(Element, RoundMore)],
        State::SquareFirst => &[
            part!(StarredEntry, SquareMore),
            part!(Named, SquareAfterFirst),
        ],
        State::SquareAfterFirst => &[part!(Clause, SquareClauses)],
        State::SquareClauses => &[part!(FurtherClause, SquareClauses)],
        State::SquareNext => &[part!(Element, SquareMore)],
        State::CurlyFirst => &[
            part!(StarredEntry, CurlyMore),
            part!(DoubleStarredEntry, CurlyMore),
            part!(CurlyEntry, CurlyAfterFirst),
        ],
        State::CurlyAfterFirst => &[part!(Clause, CurlyClauses)],
        State::CurlyClauses => &[part!(FurtherClause, CurlyClauses)],
        State::CurlyNext => &[part!(CurlyElement, CurlyMore)],
        State::ForTargets => &[part!(TargetList, ForIn)],
        State::SliceFirst => &[part!(Expression, SliceSecond)],
        State::SliceStep => &[part!(Expression, Done)],
        State::YieldFirst => &[part!(Expressions, Done)],
        State::FieldFirst => &[part!(YieldValue, FieldTail), part!(Expressions, FieldTail)],
        State::FieldTail => &[part!(Format, FieldClose)],
        State::FieldAssign => &[part!(Format, FieldClose)],
        State::FieldConverted => &[part!(Format, FieldClose)],
        State::FormatNext => &[part!(Field, FormatNext)],
        State::FBody => &[part!(Field, FBody)],
        _ => &[],
    }
}

// The parts that may stand at a state of a statement, a header or a pattern.
fn line_places_of(state: State) -> &'static [Place]
    ensures { result.now ≡ line_places state }
{
    match state {
        State::StatementNext => &[part!(SimpleStatement, StatementMore)],
        State::AssignNext => &[part!(AssignedPart, AssignMore)],
        State::AnnotationFirst => &[part!(Expression, AnnotationMore)],
        State::LastAssigned => &[part!(AssignedValue, Done)],
        State::ReturnFirst => &[part!(Expressions, Done)],
        State::RaiseFirst => &[part!(Expression, RaiseMore)],
        State::NameNext => &[part!(Identifier, NameMore)],
        State::LastTargets => &[part!(TargetList, Done)],
        State::AssertFirst => &[part!(Expression, AssertMore)],
        State::ImportNext => &[part!(ImportItem, ImportMore)],
        State::FromSource => &[part!(Source, FromImport)],
        State::FromFirst => &[part!(FromItem, FromMore)],
        State::FromNext => &[part!(FromItem, FromMore)],
        State::FromBracketed => &[part!(FromItem, FromBracketedMore)],
        State::FromBracketedNext => &[part!(FromItem, FromBracketedMore)],
        State::DotsMore => &[part!(DottedName, Done)],
        State::AliasParameters => &[part!(TypeParameters, AliasAssign)],
        State::TypeParametersFirst => &[part!(TypeParameter, TypeParametersMore)],
        State::TypeParametersNext => &[part!(TypeParameter, TypeParametersMore)],
        State::SuiteFirst => &[part!(SimpleStatement, SuiteMore)],
        State::SuiteNext => &[part!(SimpleStatement, SuiteMore)],
        State::LastSuite => &[part!(Suite, Done)],
        State::HeaderTest => &[part!(Named, LastSuite)],
        State::LoopTargets => &[part!(TargetList, LoopIn)],
        State::LoopOver => &[part!(Expressions, LastSuite)],
        State::ExceptFirst => &[part!(Expression, ExceptMore), part!(Suite, Done)],
        State::ExceptClass => &[part!(Expression, ExceptMore)],
        State::ExceptMore => &[part!(Suite, Done)],
        State::ExceptName => &[part!(Identifier, LastSuite)],
        State::WithNext => &[part!(WithEntry, WithMore)],
        State::WithMore => &[part!(Suite, Done)],
        State::BracketedItem => &[part!(WithEntry, BracketedItemMore)],
        State::BracketedItemNext => &[part!(WithEntry, BracketedItemMore)],
        State::LastTarget => &[part!(Target, Done)],
        State::DefName => &[part!(Identifier, DefParameters)],
        State::DefParameters => &[
            part!(TypeParameters, DefBracket),
            part!(Parameters, DefResult),
        ],
        State::DefBracket => &[part!(Parameters, DefResult)],
        State::DefResult => &[part!(Result, LastSuite), part!(Suite, Done)],
        State::ParametersNext => &[part!(DefParameter, ParametersMore)],
        State::ParameterAnnotation => &[part!(Expression, ParameterDefault)],
        State::ClassName => &[part!(Identifier, ClassParameters)],
        State::ClassParameters => &[
            part!(TypeParameters, ClassBracket),
            part!(Arguments, LastSuite),
            part!(Suite, Done),
        ],
        State::ClassBracket => &[part!(Arguments, LastSuite), part!(Suite, Done)],
        State::AsyncFirst => &[part!(AsyncHeader, Done)],
        State::BracketedAsyncFirst => &[part!(BracketedWith, Done)],
        State::LastNamed => &[part!(Named, Done)],
        State::MatchSubject => &[part!(Subject, MatchColon)],
        State::CaseFirst => &[part!(CasePattern, CaseGuard)],
        State::CaseGuard => &[part!(Suite, Done)],
        State::LastNumber => &[part!(Number, Done)],
        State::LastImaginary => &[part!(ImaginaryNumber, Done)],
        State::LastPattern => &[part!(Pattern, Done)],
        State::LastCapturedName => &[part!(CapturedName, Done)],
        State::PatternRoundFirst => &[
            part!(StarPattern, PatternRoundStar),
            part!(Pattern, PatternRoundMore),
        ],
        State::PatternRoundNext => &[part!(PatternEntry, PatternRoundMore)],
        State::PatternSquareNext => &[part!(PatternEntry, PatternSquareMore)],
        State::PatternsNext => &[part!(PatternEntry, PatternsMore)],
        State::MappingNext => &[
            part!(DoubleStarPattern, MappingRest),
            part!(PatternItem, MappingMore),
        ],
        State::ClassPatternNext => &[part!(ClassEntry, ClassPatternMore)],
        State::OrNext => &[part!(ClosedPattern, OrMore)],
        _ => &[],
    }
}

/// The parts that may stand at a state. No token begins two of them.
pub fn places_of(state: State) -> &'static [Place]
    ensures { result.now ≡ places state }
{
    match expression_places_of(state) {
        [] => line_places_of(state),
        places => places,
    }
}

// Whether an expression may end at a state.
fn may_end_expression(state: State) -> bool
    ensures { result ≡ may_end_expression state }
{
    matches!(
        state,
        State::Done
            | State::EntryNext
            | State::EntryMore
            | State::TargetNext
            | State::TargetMore
            | State::ComparedMore
            | State::LinkIs
            | State::IndexNext
            | State::IndexMore
            | State::StarParameterName
            | State::SliceFirst
            | State::SliceSecond
            | State::SliceStep
            | State::YieldFirst
            | State::FormatNext
            | State::StringsMore
            | State::BytesMore
    )
}

// Whether a simple statement may end at a state.
fn may_end_statement(state: State) -> bool
    ensures { result ≡ may_end_statement state }
{
    matches!(
        state,
        State::StatementNext
            | State::StatementMore
            | State::AssignMore
            | State::AnnotationMore
            | State::ReturnFirst
            | State::RaiseFirst
            | State::RaiseMore
            | State::NameMore
            | State::AssertMore
            | State::ImportMore
            | State::FromMore
            | State::DotsMore
            | State::DottedMore
    )
}

// Whether a part of a header, or a pattern, may end at a state.
fn may_end_header(state: State) -> bool
    ensures { result ≡ may_end_header state }
{
    matches!(
        state,
        State::SuiteFirst
            | State::SuiteNext
            | State::SuiteMore
            | State::ParameterDefault
            | State::DefStarName
            | State::StarAnnotation
            | State::PatternsNext
            | State::PatternsMore
            | State::OrMore
    )
}

/// Whether a form may end at a state.
pub fn may_end(state: State) -> bool
    ensures { result ≡ is_last state }
{
    may_end_expression(state) || may_end_statement(state) || may_end_header(state)
}
