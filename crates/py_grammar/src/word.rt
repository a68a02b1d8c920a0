//! What is kept of the tokens of a node: its kind, its span and its word.
ghost use Rattle.std.specs.Prelude.{◌≡◌, ◌<◌, ℕ, List, length, find, fold, option_map, true, IfOk, OnOk, Some, None, not, ◌&&◌};
ghost use Rattle.py_base.specs.Tree.{said, IsNamed, Grows, IsLinked};
ghost use Rattle.py_grammar.specs.Meaning.{is_word, has_word, first_word, kind_of_form, further_kind, kind_for, arithmetic_ops, comparison_ops, bitwise_ops, augmented_ops, conversions, op_of_text, spelled_op, op_of_words, operated, takes_name, takes_op, said_plainly, said_for, is_slice, is_relative, is_import, holds_name, only_if, is_name, said_leaf, mark_for, valued, value_of, named, converted};
ghost use Rattle.py_grammar.specs.Terminal.{lookup};
ghost use Rattle.py_grammar.specs.Found.{item_words, item_span, items_from, is_part_next, Extends, is_item, word_in};
ghost use Rattle.py_grammar.specs.Added.{AddsAtMost, one_if};
ghost use Rattle.py_grammar.specs.declared.words.Terminal.TheVariants as terminals;

use crate::found::Item;
use crate::room::intern;
use crate::strings::{bytes_word, text_word};
use crate::table::{number_of, plain_of};
use crate::terminal::terminal_for;
use crate::words::{Form, Terminal};
use py_base::{NoMemory, NodeKind, Op, Span, Tree, Word};
use py_tokens::{Token, int_value};
use std::alloc::Global;

// Whether a token is this terminal.
fn is_terminal(token: &Token, word: Terminal) -> bool
    ensures { result ≡ is_word word token.now }
{
    number_of(plain_of(terminal_for(token))) == number_of(word)
}

// Whether an item is this terminal.
fn is_word_item(item: &Item, word: Terminal) -> bool
    ensures { result ≡ is_item (is_word word) item.now }
{
    match *item {
        Item::Word(token) => is_terminal(token, word),
        Item::Part(_) => false,
    }
}

fn find_item<'a>(items: &[Item<'a>], word: Terminal) -> Option<Item<'a>>
    ensures { result ≡ find (is_item (is_word word)) items.now }
{
    items.iter().copied().find(|item| is_word_item(item, word))
}

fn token_of<'a>(item: Option<Item<'a>>) -> Option<&'a Token>
    ensures { option_map (λ b. b.now) result ≡ word_in item.entry }
{
    match item {
        Some(Item::Word(token)) => Some(token),
        _ => None,
    }
}

/// The first word that is this terminal. `None` where none is.
pub fn find_word<'a>(items: &[Item<'a>], word: Terminal) -> Option<&'a Token>
    ensures { option_map (λ b. b.now) result ≡ find (is_word word) (item_words items.now) }
{
    token_of(find_item(items, word))
}

fn does_have(items: &[Item], word: Terminal) -> bool
    ensures { result ≡ has_word word (item_words items.now) }
{
    find_word(items, word).is_some()
}

fn is_any_word(item: &Item) -> bool
    ensures { result ≡ is_item (λ _. true) item.now }
{
    matches!(*item, Item::Word(_))
}

fn first_item<'a>(items: &[Item<'a>]) -> Option<Item<'a>>
    ensures { result ≡ find (is_item (λ _. true)) items.now }
{
    items.iter().copied().find(|item| is_any_word(item))
}

fn first_of_words<'a>(items: &[Item<'a>]) -> Option<&'a Token>
    ensures { option_map (λ b. b.now) result ≡ first_word (item_words items.now) }
{
    token_of(first_item(items))
}

/// The kind of a node by its form and its words.
pub fn kind_of(form: Form, items: &[Item]) -> NodeKind
    ensures { result ≡ kind_for form (item_words items.now) }
{
    match further_kind(form, items) {
        Some(kind) => kind,
        None => plain_kind(form),
    }
}

// The kind that a form has by a further word.
fn further_kind(form: Form, items: &[Item]) -> Option<NodeKind>
    ensures { result ≡ further_kind form (item_words items.now) }
{
    match form {
        Form::Yield => only_if(does_have(items, Terminal::From), NodeKind::YieldFrom),
        Form::StarParameter => only_if(!does_have(items, Terminal::Name), NodeKind::BareStar),
        Form::DefStarParameter => only_if(!does_have(items, Terminal::Name), NodeKind::BareStar),
        Form::ImportFrom => only_if(does_have(items, Terminal::Star), NodeKind::ImportAll),
        Form::Except => only_if(does_have(items, Terminal::Star), NodeKind::ExceptStar),
        _ => None,
    }
}

fn plain_kind(form: Form) -> NodeKind
    ensures { result ≡ kind_of_form form }
{
    match form {
        Form::Entries => NodeKind::Entries,
        Form::Named => NodeKind::Named,
        Form::Lambda => NodeKind::Lambda,
        Form::Conditional => NodeKind::Conditional,
        Form::Or => NodeKind::Or,
        Form::And => NodeKind::And,
        Form::Not => NodeKind::Not,
        Form::Comparison => NodeKind::Comparison,
        Form::BitOr => NodeKind::Binary,
        Form::BitXor => NodeKind::Binary,
        Form::BitAnd => NodeKind::Binary,
        Form::Shift => NodeKind::Binary,
        Form::Sum => NodeKind::Binary,
        Form::Product => NodeKind::Binary,
        Form::Unary => NodeKind::Unary,
        Form::Power => NodeKind::Binary,
        Form::Await => NodeKind::Await,
        Form::Attribute => NodeKind::Attribute,
        Form::Call => NodeKind::Call,
        Form::Subscript => NodeKind::Subscript,
        Form::Name => NodeKind::Name,
        Form::TypeName => NodeKind::Name,
        Form::Underscore => NodeKind::Name,
        Form::Int => NodeKind::Int,
        Form::Float => NodeKind::Float,
        Form::Imaginary => NodeKind::Imaginary,
        Form::Strings => NodeKind::Strings,
        Form::BytesStrings => NodeKind::BytesStrings,
        Form::NoneValue => NodeKind::NoneValue,
        Form::TrueValue => NodeKind::TrueValue,
        Form::FalseValue => NodeKind::FalseValue,
        Form::Ellipsis => NodeKind::Ellipsis,
        Form::Round => NodeKind::Round,
        Form::Square => NodeKind::Square,
        Form::Curly => NodeKind::Curly,
        Form::Starred => NodeKind::Starred,
        Form::DoubleStarred => NodeKind::DoubleStarred,
        Form::StarArgument => NodeKind::Starred,
        Form::DoubleStarArgument => NodeKind::DoubleStarred,
        Form::Keyword => NodeKind::Keyword,
        Form::Item => NodeKind::Item,
        Form::ComprehensionFor => NodeKind::ComprehensionFor,
        Form::AsyncComprehensionFor => NodeKind::AsyncComprehensionFor,
        Form::ComprehensionIf => NodeKind::ComprehensionIf,
        Form::Targets => NodeKind::Targets,
        Form::IndexTuple => NodeKind::Entries,
        Form::Slice => NodeKind::Slice,
        Form::SliceFrom => NodeKind::Slice,
        Form::Link => NodeKind::Link,
        Form::Parameter => NodeKind::Parameter,
        Form::SlashParameter => NodeKind::Slash,
        Form::StarParameter => NodeKind::StarParameter,
        Form::DoubleStarParameter => NodeKind::DoubleStarParameter,
        Form::Yield => NodeKind::Yield,
        Form::Field => NodeKind::Field,
        Form::Format => NodeKind::Format,
        Form::Statements => NodeKind::Statements,
        Form::Assign => NodeKind::Assign,
        Form::AnnotatedAssign => NodeKind::AnnotatedAssign,
        Form::AugmentedAssign => NodeKind::AugmentedAssign,
        Form::Pass => NodeKind::Pass,
        Form::Break => NodeKind::Break,
        Form::Continue => NodeKind::Continue,
        Form::Return => NodeKind::Return,
        Form::Raise => NodeKind::Raise,
        Form::Global => NodeKind::Global,
        Form::Nonlocal => NodeKind::Nonlocal,
        Form::Del => NodeKind::Del,
        Form::Assert => NodeKind::Assert,
        Form::Import => NodeKind::Import,
        Form::ImportFrom => NodeKind::ImportFrom,
        Form::DottedName => NodeKind::DottedName,
        Form::RelativeSource => NodeKind::RelativeSource,
        Form::Alias => NodeKind::Alias,
        Form::FromAlias => NodeKind::Alias,
        Form::TypeAlias => NodeKind::TypeAlias,
        Form::TypeParameters => NodeKind::TypeParameters,
        Form::TypeParameter => NodeKind::TypeParameter,
        Form::StarTypeParameter => NodeKind::StarTypeParameter,
        Form::DoubleStarTypeParameter => NodeKind::DoubleStarTypeParameter,
        Form::Parameters => NodeKind::Parameters,
        Form::AnnotatedParameter => NodeKind::AnnotatedParameter,
        Form::DefStarParameter => NodeKind::StarParameter,
        Form::DefDoubleStarParameter => NodeKind::DoubleStarParameter,
        Form::Result => NodeKind::Result,
        Form::Arguments => NodeKind::Arguments,
        Form::Suite => NodeKind::Suite,
        Form::If => NodeKind::If,
        Form::Elif => NodeKind::Elif,
        Form::Else => NodeKind::Else,
        Form::While => NodeKind::While,
        Form::For => NodeKind::For,
        Form::Try => NodeKind::Try,
        Form::Except => NodeKind::Except,
        Form::Finally => NodeKind::Finally,
        Form::With => NodeKind::With,
        Form::BracketedWith => NodeKind::With,
        Form::WithItem => NodeKind::WithItem,
        Form::Def => NodeKind::Def,
        Form::Class => NodeKind::Class,
        Form::Match => NodeKind::Match,
        Form::Case => NodeKind::Case,
        Form::Async => NodeKind::Async,
        Form::BracketedAsync => NodeKind::Async,
        Form::Decorator => NodeKind::Decorator,
        Form::SignedNumber => NodeKind::Unary,
        Form::ComplexNumber => NodeKind::Binary,
        Form::PatternAttribute => NodeKind::Attribute,
        Form::PatternRound => NodeKind::Round,
        Form::PatternSquare => NodeKind::Square,
        Form::Patterns => NodeKind::Patterns,
        Form::StarPattern => NodeKind::StarPattern,
        Form::DoubleStarPattern => NodeKind::DoubleStarPattern,
        Form::MappingPattern => NodeKind::MappingPattern,
        Form::PatternItem => NodeKind::PatternItem,
        Form::ClassPattern => NodeKind::ClassPattern,
        Form::KeywordPattern => NodeKind::KeywordPattern,
        Form::OrPattern => NodeKind::OrPattern,
        Form::AsPattern => NodeKind::AsPattern,
    }
}

fn span_in(item: &Item) -> Span
    ensures { result ≡ item_span item.now }
{
    match item {
        Item::Word(token) => token.span,
        Item::Part(found) => found.span,
    }
}

/// From the first to the last of the items.
pub fn span_over(items: &[Item]) -> Span
    ensures { result ≡ record { from = items_from items.now; to = fold (λ end x. (item_span x).to) 0 items.now } }
{
    let from = match items {
        [] => 0,
        [first, ..] => span_in(first).from,
    };
    let to = items.iter().fold(0, |_, item| span_in(item).to);
    Span { from, to }
}

fn arithmetic_op(text: &str) -> Option<Op>
    ensures { result ≡ lookup arithmetic_ops text.now }
{
    if text == "+" {
        Some(Op::Plus)
    } else if text == "-" {
        Some(Op::Minus)
    } else if text == "*" {
        Some(Op::Star)
    } else if text == "/" {
        Some(Op::Slash)
    } else if text == "%" {
        Some(Op::Percent)
    } else if text == "@" {
        Some(Op::At)
    } else if text == "//" {
        Some(Op::DoubleSlash)
    } else if text == "**" {
        Some(Op::DoubleStar)
    } else {
        None
    }
}

fn comparison_op(text: &str) -> Option<Op>
    ensures { result ≡ lookup comparison_ops text.now }
{
    if text == "<" {
        Some(Op::Less)
    } else if text == ">" {
        Some(Op::Greater)
    } else if text == "<=" {
        Some(Op::LessEqual)
    } else if text == ">=" {
        Some(Op::GreaterEqual)
    } else if text == "==" {
        Some(Op::Equal)
    } else if text == "!=" {
        Some(Op::NotEqual)
    } else {
        None
    }
}

fn bitwise_op(text: &str) -> Option<Op>
    ensures { result ≡ lookup bitwise_ops text.now }
{
    if text == "&" {
        Some(Op::BitAnd)
    } else if text == "|" {
        Some(Op::BitOr)
    } else if text == "^" {
        Some(Op::BitXor)
    } else if text == "~" {
        Some(Op::Tilde)
    } else if text == "<<" {
        Some(Op::ShiftLeft)
    } else if text == ">>" {
        Some(Op::ShiftRight)
    } else {
        None
    }
}

fn augmented_op(text: &str) -> Option<Op>
    ensures { result ≡ lookup augmented_ops text.now }
{
    if text == "+=" {
        Some(Op::Plus)
    } else if text == "-=" {
        Some(Op::Minus)
    } else if text == "*=" {
        Some(Op::Star)
    } else if text == "/=" {
        Some(Op::Slash)
    } else if text == "//=" {
        Some(Op::DoubleSlash)
    } else if text == "%=" {
        Some(Op::Percent)
    } else if text == "@=" {
        Some(Op::At)
    } else if text == "&=" {
        Some(Op::BitAnd)
    } else if text == "|=" {
        Some(Op::BitOr)
    } else if text == "^=" {
        Some(Op::BitXor)
    } else if text == ">>=" {
        Some(Op::ShiftRight)
    } else if text == "<<=" {
        Some(Op::ShiftLeft)
    } else if text == "**=" {
        Some(Op::DoubleStar)
    } else {
        None
    }
}

fn conversion_op(text: &str) -> Option<Op>
    ensures { result ≡ lookup conversions text.now }
{
    if text == "!r" {
        Some(Op::ToRepr)
    } else if text == "!s" {
        Some(Op::ToStr)
    } else if text == "!a" {
        Some(Op::ToAscii)
    } else {
        None
    }
}

fn spelled(text: &str) -> Option<Op>
    ensures { result ≡ op_of_text text.now }
{
    if let Some(op) = arithmetic_op(text) {
        return Some(op);
    }
    if let Some(op) = comparison_op(text) {
        return Some(op);
    }
    if let Some(op) = bitwise_op(text) {
        return Some(op);
    }
    augmented_op(text)
}

fn spelled_by_first(items: &[Item]) -> Option<Op>
    ensures { result ≡ spelled_op (first_word (item_words items.now)) }
{
    match first_of_words(items) {
        None => None,
        Some(token) => spelled(token.text.as_str()),
    }
}

// The operator that the words of an operator spell together.
fn op_of(items: &[Item]) -> Option<Op>
    ensures { result ≡ op_of_words (item_words items.now) }
{
    let negated = does_have(items, Terminal::Not);
    if does_have(items, Terminal::Is) {
        Some(if negated { Op::IsNot } else { Op::Is })
    } else if negated {
        Some(Op::NotIn)
    } else if does_have(items, Terminal::In) {
        Some(Op::In)
    } else {
        spelled_by_first(items)
    }
}

fn conversion_of(items: &[Item]) -> Option<Op>
    ensures { operated result ≡ converted (find (is_word terminals.FConversion) (item_words items.now)) }
{
    match find_word(items, Terminal::FConversion) {
        None => None,
        Some(token) => conversion_op(token.text.as_str()),
    }
}

fn word_of_op(op: Option<Op>) -> Word
    ensures said { (names : List (List ℕ)) → said names result ≡ operated op }
    ensures named { (names : ℕ) → IsNamed names result }
{
    match op {
        None => Word::Nothing,
        Some(op) => Word::Op(op),
    }
}

fn int_word(items: &[Item]) -> Word
    ensures said { (names : List (List ℕ)) → said names result ≡ value_of (first_word (item_words items.now)) }
    ensures named { (names : ℕ) → IsNamed names result }
{
    match first_of_words(items) {
        None => Word::Nothing,
        Some(token) => match int_value(token.text.as_str()) {
            None => Word::Nothing,
            Some(value) => Word::Int(value),
        },
    }
}

// The name among the words, interned.
fn name_word(tree: &mut Tree, items: &[Item]) -> Result<Word, NoMemory>
    requires { IsLinked tree.old }
    ensures older { Extends tree.old tree.new }
    ensures said { IfOk result (λ w. (said tree.new.names w ≡ named (find (is_word terminals.Name) (item_words items.now))) × IsNamed (length tree.new.names) w) }
    ensures same { OnOk result (tree.new.nodes ≡ tree.old.nodes) }
    ensures grows { OnOk result (AddsAtMost 0 1 tree.old tree.new) }
{
    match find_word(items, Terminal::Name) {
        None => Ok(Word::Nothing),
        Some(token) => {
            let id = intern(tree, token.text.as_str())?;
            Ok(Word::Name(id))
        }
    }
}

/// Whether the word of a form is a name.
pub fn is_named_form(form: Form) -> bool
    ensures { result ≡ takes_name form }
{
    matches!(
        form,
        Form::Name | Form::TypeName | Form::Underscore | Form::Attribute | Form::PatternAttribute
    )
}

fn is_operator_form(form: Form) -> bool
    ensures { result ≡ takes_op form }
{
    matches!(
        form,
        Form::Comparison
            | Form::Link
            | Form::BitOr
            | Form::BitXor
            | Form::BitAnd
            | Form::Shift
            | Form::Sum
            | Form::Product
            | Form::Unary
            | Form::Power
            | Form::AugmentedAssign
            | Form::SignedNumber
            | Form::ComplexNumber
    )
}

/// The word of a form that takes no name. `NoMemory` where a value could not be stored.
pub fn plain_word(alloc: Global, form: Form, items: &[Item]) -> Result<Word, NoMemory>
    ensures said { IfOk result (λ w. (names : List (List ℕ)) → said names w ≡ said_plainly form (item_words items.now)) }
    ensures named { IfOk result (λ w. (names : ℕ) → IsNamed names w) }
{
    match form {
        Form::Strings => text_word(alloc, items),
        Form::BytesStrings => bytes_word(alloc, items),
        Form::Int => Ok(int_word(items)),
        Form::Field => Ok(word_of_op(conversion_of(items))),
        _ if is_operator_form(form) => Ok(word_of_op(op_of(items))),
        _ => Ok(Word::Nothing),
    }
}

/// What the word of a node says, by its form and its words. `NoMemory` where a name or a value
/// could not be stored.
pub fn word_for(
    alloc: Global,
    tree: &mut Tree,
    form: Form,
    items: &[Item],
) -> Result<Word, NoMemory>
    requires { IsLinked tree.old }
    ensures older { Extends tree.old tree.new }
    ensures said { IfOk result (λ w. (said tree.new.names w ≡ said_for form (item_words items.now)) × IsNamed (length tree.new.names) w) }
    ensures same { OnOk result (tree.new.nodes ≡ tree.old.nodes) }
    ensures grows { OnOk result (AddsAtMost 0 (one_if (takes_name form)) tree.old tree.new) }
{
    if is_named_form(form) {
        name_word(tree, items)
    } else {
        let word = plain_word(alloc, form, items)?;
        Ok(word)
    }
}

fn is_slice(form: Form) -> bool
    ensures { result ≡ is_slice form }
{
    matches!(form, Form::Slice | Form::SliceFrom)
}

fn is_relative(form: Form) -> bool
    ensures { result ≡ is_relative form }
{
    matches!(form, Form::RelativeSource)
}

fn is_import(form: Form) -> bool
    ensures { result ≡ is_import form }
{
    matches!(form, Form::ImportFrom)
}

// Whether a word of the form is a name on its own.
fn does_hold_name(form: Form) -> bool
    ensures { result ≡ holds_name form }
{
    matches!(
        form,
        Form::StarParameter
            | Form::DefStarParameter
            | Form::DefDoubleStarParameter
            | Form::DottedName
            | Form::TypeAlias
    )
}

fn only_if(holds: bool, kind: NodeKind) -> Option<NodeKind>
    ensures { result ≡ only_if holds kind }
{
    if holds { Some(kind) } else { None }
}

/// The kind of leaf that a word of a form leaves, by whether a part stands behind it. `None` where
/// it leaves none. A soft keyword counts as a name here.
pub fn mark_of(form: Form, word: Terminal, before_part: bool) -> Option<NodeKind>
    ensures { result ≡ mark_for form word before_part }
{
    match word {
        Terminal::Comma => only_if(!before_part && !is_import(form), NodeKind::LastComma),
        Terminal::Colon => only_if(is_slice(form), NodeKind::Colon),
        Terminal::Dot => only_if(is_relative(form), NodeKind::Dot),
        Terminal::Ellipsis => only_if(is_relative(form), NodeKind::Ellipsis),
        Terminal::Name => only_if(does_hold_name(form), NodeKind::Name),
        _ => None,
    }
}

fn is_name(kind: NodeKind) -> bool
    ensures { result ≡ is_name kind }
{
    matches!(kind, NodeKind::Name)
}

/// What the word of a leaf says: a name its text. `NoMemory` where the name could not be stored.
pub fn leaf_word(tree: &mut Tree, kind: NodeKind, token: &Token) -> Result<Word, NoMemory>
    requires { IsLinked tree.old }
    ensures older { Extends tree.old tree.new }
    ensures said { IfOk result (λ w. (said tree.new.names w ≡ said_leaf kind token.now) × IsNamed (length tree.new.names) w) }
    ensures same { OnOk result (tree.new.nodes ≡ tree.old.nodes) }
    ensures grows { OnOk result (AddsAtMost 0 (one_if (is_name kind)) tree.old tree.new) }
{
    if is_name(kind) {
        let id = intern(tree, token.text.as_str())?;
        Ok(Word::Name(id))
    } else {
        Ok(Word::Nothing)
    }
}

/// Whether the next item is a part.
pub fn is_part_first(items: &[Item]) -> bool
    ensures { result ≡ is_part_next items.now }
{
    matches!(items, [Item::Part(_), ..])
}
