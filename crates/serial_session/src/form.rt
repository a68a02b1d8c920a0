//! The forms of line that a text may have in this stage.
ghost use Rattle.std.specs.Prelude.{◌≡◌, ◌&&◌, ◌==◌, IfOk, codes, eqb, option_map};
ghost use Rattle.serial_session.specs.declared.form.Form.TheVariants.{Reveal};
ghost use Rattle.std.specs.List.{list_any, starts_with};
ghost use Rattle.serial_session.specs.Forms.{is_operator, is_reveal_type, name_use, keyword_value, is_one_quoted, is_plain_string, plain_string_value, value_of, binding, form_of};

use py_base::{NoMemory, Span, Text};
use py_tokens::{LogicalLine, StringValue, Token, TokenKind, int_value, string_value};
use std::alloc::Global;
use type_terms::Literal;

/// A name where it is read, with its place in the text.
#[derive(Debug, Drop)]
pub struct NameUse {
    pub name: Text,
    pub span: Span,
}

/// What stands right of `=`.
#[derive(Drop)]
pub enum Value {
    Literal(Literal),
    /// `None`.
    NoneValue,
    Read(NameUse),
}

/// A valid line.
#[derive(Drop)]
pub enum Form {
    /// NAME `=` literal, or NAME `=` NAME.
    Binding(Text, Value),
    /// `reveal_type(NAME)`.
    Reveal(NameUse),
}

fn is_operator(token: &Token, sign: &str) -> bool
    ensures { result ≡ is_operator sign.now token.now }
{
    token.kind == TokenKind::Operator && token.text.as_str() == sign
}

fn is_reveal_type(token: &Token) -> bool
    ensures { result ≡ is_reveal_type token.now }
{
    token.kind == TokenKind::Name && token.text.as_str() == "reveal_type"
}

fn name_use(alloc: Global, token: &Token) -> Result<Option<NameUse>, NoMemory>
    ensures { IfOk result (λ o. o ≡ name_use token.now) }
{
    if token.kind != TokenKind::Name || token.text.as_str() == "reveal_type" {
        return Ok(None);
    }
    let name = Text::from_str(alloc, token.text.as_str())?;
    Ok(Some(NameUse {
        name,
        span: token.span,
    }))
}

fn value_of(alloc: Global, token: &Token) -> Result<Option<Value>, NoMemory>
    ensures { IfOk result (λ o. o ≡ value_of token.now) }
{
    match token.kind {
        TokenKind::Int => match int_value(token.text.as_str()) {
            Some(n) => Ok(Some(Value::Literal(Literal::Int(n)))),
            None => Ok(None),
        },
        TokenKind::Str => plain_string_value(alloc, token.text.as_str()),
        TokenKind::Keyword => Ok(keyword_value(token.text.as_str())),
        TokenKind::Name => match name_use(alloc, token)? {
            Some(read) => Ok(Some(Value::Read(read))),
            None => Ok(None),
        },
        _ => Ok(None),
    }
}

fn keyword_value(text: &str) -> Option<Value>
    ensures { result ≡ keyword_value text.now }
{
    match text {
        "None" => Some(Value::NoneValue),
        "True" => Some(Value::Literal(Literal::Bool(true))),
        "False" => Some(Value::Literal(Literal::Bool(false))),
        _ => None,
    }
}

#[tactic(auto, using(std::proofs::lemmas::Str::Pattern::starts_text))]
fn begins_with(front: &str, text: &str) -> bool
    ensures { result ≡ starts_with eqb text.now front.now }
{
    text.starts_with(front)
}

// Whether a text begins with this quote, and not with three of them.
fn is_one_quoted(quote: &str, three: &str, text: &str) -> bool
    ensures { result ≡ is_one_quoted quote.now three.now text.now }
{
    begins_with(quote, text) && !begins_with(three, text)
}

fn has_backslash(text: &str) -> bool
    ensures { result ≡ list_any (λ byte. byte == 92) text.now }
{
    text.as_bytes().iter().any(|byte| *byte == b'\\')
}

fn is_plain_string(text: &str) -> bool
    ensures { result ≡ is_plain_string text.now }
{
    (is_one_quoted("'", "'''", text) || is_one_quoted("\"", "\"\"\"", text)) && !has_backslash(text)
}

fn plain_string_value(alloc: Global, text: &str) -> Result<Option<Value>, NoMemory>
    ensures { IfOk result (λ o. o ≡ plain_string_value text.now) }
{
    if !is_plain_string(text) {
        return Ok(None);
    }
    match string_value(alloc, text)? {
        Some(StringValue::Text(text)) => Ok(Some(Value::Literal(Literal::Str(text)))),
        _ => Ok(None),
    }
}

/// The form of a line; `None` exactly where it isn't valid.
pub fn form_of(alloc: Global, line: &LogicalLine) -> Result<Option<Form>, NoMemory>
    ensures { IfOk result (λ o. o ≡ form_of line.now) }
{
    if line.column != 0 || line.fault.is_some() {
        return Ok(None);
    }
    match line.tokens.as_slice() {
        [target, equals, value] if is_operator(equals, "=") => binding(alloc, target, value),
        [function, left, argument, right] if is_call(function, left, right) => {
            reveal(alloc, argument)
        }
        _ => Ok(None),
    }
}

fn binding(alloc: Global, target: &Token, value: &Token) -> Result<Option<Form>, NoMemory>
    ensures { IfOk result (λ o. o ≡ binding (name_use target.now) (value_of value.now)) }
{
    let Some(target) = name_use(alloc, target)? else {
        return Ok(None);
    };
    match value_of(alloc, value)? {
        Some(value) => Ok(Some(Form::Binding(target.name, value))),
        None => Ok(None),
    }
}

fn is_call(function: &Token, left: &Token, right: &Token) -> bool
    ensures { result ≡ (is_reveal_type function.now && (is_operator (codes "(") left.now && is_operator (codes ")") right.now)) }
{
    is_reveal_type(function) && is_operator(left, "(") && is_operator(right, ")")
}

fn reveal(alloc: Global, argument: &Token) -> Result<Option<Form>, NoMemory>
    ensures { IfOk result (λ o. o ≡ option_map Reveal (name_use argument.now)) }
{
    match name_use(alloc, argument)? {
        Some(read) => Ok(Some(Form::Reveal(read))),
        None => Ok(None),
    }
}
