//! What each token is to the grammar.
ghost use Rattle.std.specs.Prelude.{◌≡◌};
ghost use Rattle.py_grammar.specs.Terminal.{lookup, keywords_to_await, keywords_to_except, keywords_to_is, keywords_to_yield, soft_keywords, punctuation, brackets, arithmetic, comparisons, bitwise, augmented, keyword_terminal, name_terminal, operator_terminal, string_terminal, is_bytes_literal, is_ascii_text, terminal_of, terminal};

use crate::words::Terminal;
use py_tokens::{Token, TokenKind, int_value};

fn keyword_to_await(text: &str) -> Option<Terminal>
    ensures { result ≡ lookup keywords_to_await text.now }
{
    if text == "False" {
        Some(Terminal::FalseWord)
    } else if text == "None" {
        Some(Terminal::NoneWord)
    } else if text == "True" {
        Some(Terminal::TrueWord)
    } else if text == "and" {
        Some(Terminal::And)
    } else if text == "as" {
        Some(Terminal::As)
    } else if text == "assert" {
        Some(Terminal::Assert)
    } else if text == "async" {
        Some(Terminal::Async)
    } else if text == "await" {
        Some(Terminal::Await)
    } else {
        None
    }
}

fn keyword_to_except(text: &str) -> Option<Terminal>
    ensures { result ≡ lookup keywords_to_except text.now }
{
    if text == "break" {
        Some(Terminal::Break)
    } else if text == "class" {
        Some(Terminal::Class)
    } else if text == "continue" {
        Some(Terminal::Continue)
    } else if text == "def" {
        Some(Terminal::Def)
    } else if text == "del" {
        Some(Terminal::Del)
    } else if text == "elif" {
        Some(Terminal::Elif)
    } else if text == "else" {
        Some(Terminal::Else)
    } else if text == "except" {
        Some(Terminal::Except)
    } else {
        None
    }
}

fn keyword_to_is(text: &str) -> Option<Terminal>
    ensures { result ≡ lookup keywords_to_is text.now }
{
    if text == "finally" {
        Some(Terminal::Finally)
    } else if text == "for" {
        Some(Terminal::For)
    } else if text == "from" {
        Some(Terminal::From)
    } else if text == "global" {
        Some(Terminal::Global)
    } else if text == "if" {
        Some(Terminal::If)
    } else if text == "import" {
        Some(Terminal::Import)
    } else if text == "in" {
        Some(Terminal::In)
    } else if text == "is" {
        Some(Terminal::Is)
    } else {
        None
    }
}

fn keyword_to_yield(text: &str) -> Option<Terminal>
    ensures { result ≡ lookup keywords_to_yield text.now }
{
    if text == "lambda" {
        Some(Terminal::Lambda)
    } else if text == "nonlocal" {
        Some(Terminal::Nonlocal)
    } else if text == "not" {
        Some(Terminal::Not)
    } else if text == "or" {
        Some(Terminal::Or)
    } else if text == "pass" {
        Some(Terminal::Pass)
    } else if text == "raise" {
        Some(Terminal::Raise)
    } else if text == "return" {
        Some(Terminal::Return)
    } else if text == "try" {
        Some(Terminal::Try)
    } else if text == "while" {
        Some(Terminal::While)
    } else if text == "with" {
        Some(Terminal::With)
    } else if text == "yield" {
        Some(Terminal::Yield)
    } else {
        None
    }
}

fn soft_keyword(text: &str) -> Option<Terminal>
    ensures { result ≡ lookup soft_keywords text.now }
{
    if text == "match" {
        Some(Terminal::MatchWord)
    } else if text == "case" {
        Some(Terminal::CaseWord)
    } else if text == "type" {
        Some(Terminal::TypeWord)
    } else if text == "_" {
        Some(Terminal::Underscore)
    } else {
        None
    }
}

fn punctuation_mark(text: &str) -> Option<Terminal>
    ensures { result ≡ lookup punctuation text.now }
{
    if text == "," {
        Some(Terminal::Comma)
    } else if text == ":" {
        Some(Terminal::Colon)
    } else if text == "." {
        Some(Terminal::Dot)
    } else if text == "=" {
        Some(Terminal::Assign)
    } else if text == ":=" {
        Some(Terminal::Walrus)
    } else if text == "..." {
        Some(Terminal::Ellipsis)
    } else if text == ";" {
        Some(Terminal::Semicolon)
    } else if text == "->" {
        Some(Terminal::Arrow)
    } else {
        None
    }
}

fn bracket(text: &str) -> Option<Terminal>
    ensures { result ≡ lookup brackets text.now }
{
    if text == "(" {
        Some(Terminal::OpenRound)
    } else if text == ")" {
        Some(Terminal::CloseRound)
    } else if text == "[" {
        Some(Terminal::OpenSquare)
    } else if text == "]" {
        Some(Terminal::CloseSquare)
    } else if text == "{" {
        Some(Terminal::OpenCurly)
    } else if text == "}" {
        Some(Terminal::CloseCurly)
    } else {
        None
    }
}

fn arithmetic_operator(text: &str) -> Option<Terminal>
    ensures { result ≡ lookup arithmetic text.now }
{
    if text == "+" {
        Some(Terminal::Plus)
    } else if text == "-" {
        Some(Terminal::Minus)
    } else if text == "*" {
        Some(Terminal::Star)
    } else if text == "/" {
        Some(Terminal::Slash)
    } else if text == "%" {
        Some(Terminal::Times)
    } else if text == "@" {
        Some(Terminal::At)
    } else if text == "//" {
        Some(Terminal::Times)
    } else if text == "**" {
        Some(Terminal::DoubleStar)
    } else {
        None
    }
}

fn augmented_operator(text: &str) -> Option<Terminal>
    ensures { result ≡ lookup augmented text.now }
{
    if text == "+=" {
        Some(Terminal::AugmentedAssign)
    } else if text == "-=" {
        Some(Terminal::AugmentedAssign)
    } else if text == "*=" {
        Some(Terminal::AugmentedAssign)
    } else if text == "/=" {
        Some(Terminal::AugmentedAssign)
    } else if text == "//=" {
        Some(Terminal::AugmentedAssign)
    } else if text == "%=" {
        Some(Terminal::AugmentedAssign)
    } else if text == "@=" {
        Some(Terminal::AugmentedAssign)
    } else if text == "&=" {
        Some(Terminal::AugmentedAssign)
    } else if text == "|=" {
        Some(Terminal::AugmentedAssign)
    } else if text == "^=" {
        Some(Terminal::AugmentedAssign)
    } else if text == ">>=" {
        Some(Terminal::AugmentedAssign)
    } else if text == "<<=" {
        Some(Terminal::AugmentedAssign)
    } else if text == "**=" {
        Some(Terminal::AugmentedAssign)
    } else {
        None
    }
}

fn comparison_operator(text: &str) -> Option<Terminal>
    ensures { result ≡ lookup comparisons text.now }
{
    if text == "<" {
        Some(Terminal::Compare)
    } else if text == ">" {
        Some(Terminal::Compare)
    } else if text == "<=" {
        Some(Terminal::Compare)
    } else if text == ">=" {
        Some(Terminal::Compare)
    } else if text == "==" {
        Some(Terminal::Compare)
    } else if text == "!=" {
        Some(Terminal::Compare)
    } else {
        None
    }
}

fn bitwise_operator(text: &str) -> Option<Terminal>
    ensures { result ≡ lookup bitwise text.now }
{
    if text == "&" {
        Some(Terminal::Ampersand)
    } else if text == "|" {
        Some(Terminal::Bar)
    } else if text == "^" {
        Some(Terminal::Caret)
    } else if text == "~" {
        Some(Terminal::Tilde)
    } else if text == "<<" {
        Some(Terminal::Shift)
    } else if text == ">>" {
        Some(Terminal::Shift)
    } else {
        None
    }
}

fn keyword(text: &str) -> Terminal
    ensures { result ≡ keyword_terminal text.now }
{
    if let Some(word) = keyword_to_await(text) {
        return word;
    }
    if let Some(word) = keyword_to_except(text) {
        return word;
    }
    if let Some(word) = keyword_to_is(text) {
        return word;
    }
    match keyword_to_yield(text) {
        Some(word) => word,
        None => Terminal::Other,
    }
}

fn name(text: &str) -> Terminal
    ensures { result ≡ name_terminal text.now }
{
    match soft_keyword(text) {
        Some(word) => word,
        None => Terminal::Name,
    }
}

fn operator(text: &str) -> Terminal
    ensures { result ≡ operator_terminal text.now }
{
    if let Some(word) = punctuation_mark(text) {
        return word;
    }
    if let Some(word) = bracket(text) {
        return word;
    }
    if let Some(word) = arithmetic_operator(text) {
        return word;
    }
    if let Some(word) = comparison_operator(text) {
        return word;
    }
    if let Some(word) = bitwise_operator(text) {
        return word;
    }
    match augmented_operator(text) {
        Some(word) => word,
        None => Terminal::Other,
    }
}

// Whether a string literal is one of bytes: whether its prefix has a `b`.
fn is_bytes(text: &str) -> bool
    ensures { result ≡ is_bytes_literal text.now }
{
    match text.as_bytes() {
        [b'b' | b'B', ..] => true,
        [b'r' | b'R', b'b' | b'B', ..] => true,
        _ => false,
    }
}

fn has_ascii_alone(text: &str) -> bool
    ensures { result ≡ is_ascii_text text.now }
{
    text.as_bytes().iter().all(|byte| *byte < 128)
}

fn string(text: &str) -> Terminal
    ensures { result ≡ string_terminal text.now }
{
    if !is_bytes(text) {
        Terminal::Str
    } else if has_ascii_alone(text) {
        Terminal::BytesStr
    } else {
        Terminal::Other
    }
}

fn terminal_by(kind: TokenKind, text: &str) -> Terminal
    ensures { result ≡ terminal_of kind text.now }
{
    match kind {
        TokenKind::Name => name(text),
        TokenKind::Keyword => keyword(text),
        TokenKind::Int if int_value(text).is_none() => Terminal::Other,
        TokenKind::Int => Terminal::Int,
        TokenKind::Float => Terminal::Float,
        TokenKind::Imag => Terminal::Imaginary,
        TokenKind::Str => string(text),
        TokenKind::FStart => Terminal::FStart,
        TokenKind::FText => Terminal::FText,
        TokenKind::FConversion => Terminal::FConversion,
        TokenKind::FEnd => Terminal::FEnd,
        TokenKind::Operator => operator(text),
    }
}

/// What a token is to the grammar. A word or a literal that stands in no line is `Other`.
#[tactic(auto, unfolding(crate::specs::Terminal::terminal))]
pub fn terminal_for(token: &Token) -> Terminal
    ensures { result ≡ terminal token.now }
{
    terminal_by(token.kind, token.text.as_str())
}
