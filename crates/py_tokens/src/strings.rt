//! Strings: how they begin, and their inside character by character.
ghost use Rattle.std.specs.Prelude.{◌≡◌, ◌≤◌};
ghost use Rattle.py_tokens.specs.Strings.{is_letter, is_f, is_prefix, is_prefix_pair, quotes_of, closing_len, closes_here, opening_at, string_opening, in_string, string_next, is_closed, in_text, text_if, text_next, ends_text};

use crate::chars::{char_at, ends_line, is_quote};

/// The quotes around a string: one, or three of the same.
#[derive(Clone, Copy)]
pub struct Quotes {
    pub quote: char,
    pub triple: bool,
}

/// How a string begins: the characters of its prefix and its opening quotes, and whether it is an
/// f-string.
#[derive(Clone, Copy)]
pub struct Opening {
    pub len: usize,
    pub formatted: bool,
    pub quotes: Quotes,
}

/// Where in a string a character may follow.
#[derive(Clone, Copy)]
pub enum InString {
    /// So many characters of its opening are still to come.
    Opening(usize),
    Inside,
    /// Behind a backslash.
    Escaped,
    /// Behind a backslash and CR.
    EscapedReturn,
    /// Behind one quote of a string in three.
    OneQuote,
    /// Behind two.
    TwoQuotes,
    Closed,
}

/// Where in a run of text of an f-string a character may follow.
#[derive(Clone, Copy)]
pub enum InText {
    Start,
    Inside,
    Escaped,
    EscapedReturn,
    AfterOpen,
    AfterClose,
    OneQuote,
    TwoQuotes,
}

/// Whether the character is this letter, in either case.
pub fn is_letter(letter: char, capital: char, c: char) -> bool
    ensures { result ≡ is_letter letter capital c }
{
    c == letter || c == capital
}

fn is_f(c: char) -> bool
    ensures { result ≡ is_f c }
{
    is_letter('f', 'F', c)
}

fn is_prefix(c: char) -> bool
    ensures { result ≡ is_prefix c }
{
    is_letter('r', 'R', c) || is_letter('u', 'U', c) || is_letter('b', 'B', c) || is_f(c)
}

fn is_prefix_pair(c: char, d: char) -> bool
    ensures { result ≡ is_prefix_pair c d }
{
    if is_letter('r', 'R', c) {
        is_letter('b', 'B', d) || is_f(d)
    } else {
        (is_letter('b', 'B', c) || is_f(c)) && is_letter('r', 'R', d)
    }
}

fn quotes_of(quote: char, second: char, third: char) -> Quotes
    ensures { result ≡ quotes_of quote second third }
{
    Quotes {
        quote,
        triple: second == quote && third == quote,
    }
}

/// How many quotes close the string.
pub fn closing_len(quotes: Quotes) -> usize
    ensures value { result ≡ closing_len quotes }
    ensures few { result ≤ 3 }
{
    if quotes.triple { 3 } else { 1 }
}

/// Whether the string closes here.
pub fn closes_here(quotes: Quotes, text: &[char]) -> bool
    ensures { result ≡ closes_here quotes text.now }
{
    char_at(text, 0) == quotes.quote
        && (!quotes.triple
            || (char_at(text, 1) == quotes.quote && char_at(text, 2) == quotes.quote))
}

fn opening_at(prefix: usize, formatted: bool, quotes: Quotes) -> Opening
    requires { prefix ≤ 2 }
    ensures { result ≡ opening_at prefix formatted quotes }
{
    Opening {
        len: prefix + closing_len(quotes),
        formatted,
        quotes,
    }
}

/// How the string begins that begins at the front.
#[tactic(auto, unfolding(crate::specs::Strings::string_opening), using(crate::proofs::Openings::no_prefix_pair))]
pub fn string_opening(text: &[char]) -> Option<Opening>
    ensures { result ≡ string_opening text.now }
{
    let c = char_at(text, 0);
    if !is_quote(c) && !is_prefix(c) {
        return None;
    }
    let d = char_at(text, 1);
    let e = char_at(text, 2);
    if is_quote(c) {
        Some(opening_at(0, false, quotes_of(c, d, e)))
    } else if is_prefix(c) && is_quote(d) {
        Some(opening_at(1, is_f(c), quotes_of(d, e, char_at(text, 3))))
    } else if is_prefix_pair(c, d) && is_quote(e) {
        let quotes = quotes_of(e, char_at(text, 3), char_at(text, 4));
        Some(opening_at(2, is_f(c) || is_f(d), quotes))
    } else {
        None
    }
}

// What comes behind this character inside a string.
fn in_string(quotes: Quotes, c: char) -> Option<InString>
    ensures { result ≡ in_string quotes c }
{
    if c == quotes.quote {
        Some(if quotes.triple {
            InString::OneQuote
        } else {
            InString::Closed
        })
    } else if c == '\\' {
        Some(InString::Escaped)
    } else if ends_line(c) && !quotes.triple {
        None
    } else {
        Some(InString::Inside)
    }
}

/// Where a string stands after one more character, if it may have it.
pub fn string_next(quotes: Quotes, place: InString, c: char) -> Option<InString>
    ensures { result ≡ string_next quotes place c }
{
    match place {
        InString::Opening(n) => Some(if n > 1 {
            InString::Opening(n - 1)
        } else {
            InString::Inside
        }),
        InString::Escaped => Some(if c == '\r' {
            InString::EscapedReturn
        } else {
            InString::Inside
        }),
        InString::EscapedReturn if c == '\n' => Some(InString::Inside),
        InString::OneQuote if c == quotes.quote => Some(InString::TwoQuotes),
        InString::TwoQuotes if c == quotes.quote => Some(InString::Closed),
        InString::Inside | InString::EscapedReturn | InString::OneQuote | InString::TwoQuotes =>
            in_string(quotes, c),
        InString::Closed => None,
    }
}

pub fn is_closed(place: InString) -> bool
    ensures { result ≡ is_closed place }
{
    matches!(place, InString::Closed)
}

// What comes behind this character in a run of text.
fn in_text(in_format: bool, quotes: Quotes, c: char) -> Option<InText>
    ensures { result ≡ in_text in_format quotes c }
{
    if c == quotes.quote {
        if quotes.triple {
            Some(InText::OneQuote)
        } else {
            None
        }
    } else if c == '{' {
        Some(InText::AfterOpen)
    } else if c == '}' {
        if in_format {
            None
        } else {
            Some(InText::AfterClose)
        }
    } else if c == '\\' {
        Some(InText::Escaped)
    } else if ends_line(c) && !quotes.triple {
        None
    } else {
        Some(InText::Inside)
    }
}

fn text_if(may: bool) -> Option<InText>
    ensures { result ≡ text_if may }
{
    if may { Some(InText::Inside) } else { None }
}

/// Where a run of text stands after one more character, if it may have it.
pub fn text_next(in_format: bool, quotes: Quotes, place: InText, c: char) -> Option<InText>
    ensures { result ≡ text_next in_format quotes place c }
{
    match place {
        InText::Escaped => Some(if c == '\r' {
            InText::EscapedReturn
        } else {
            InText::Inside
        }),
        InText::AfterOpen => text_if(c == '{'),
        InText::AfterClose => text_if(c == '}'),
        InText::EscapedReturn if c == '\n' => Some(InText::Inside),
        InText::OneQuote if c == quotes.quote => Some(InText::TwoQuotes),
        InText::TwoQuotes if c == quotes.quote => None,
        InText::Start
        | InText::Inside
        | InText::EscapedReturn
        | InText::OneQuote
        | InText::TwoQuotes => in_text(in_format, quotes, c),
    }
}

/// Whether a run of text may end there, where `rest` follows: not inside the quotes that close the
/// string.
pub fn ends_text(quotes: Quotes, place: InText, rest: &[char]) -> bool
    ensures { result ≡ ends_text quotes place rest.now }
{
    match place {
        InText::Inside | InText::EscapedReturn => true,
        InText::OneQuote => !(char_at(rest, 0) == quotes.quote && char_at(rest, 1) == quotes.quote),
        InText::TwoQuotes => char_at(rest, 0) != quotes.quote,
        InText::Start | InText::Escaped | InText::AfterOpen | InText::AfterClose => false,
    }
}
