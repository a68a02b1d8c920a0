//! Classes of characters, and the runs of a class.
ghost use Rattle.std.specs.Prelude.{◌≡◌, slice_index};
ghost use Rattle.py_tokens.specs.Chars.{starts_name, is_blank, ends_line, is_quote, opens_bracket, closes_bracket, end_len, has, every};
ghost use Rattle.py_tokens.specs.Fronts.{IsLongestBy};

/// A class of characters of which a piece may consist.
#[derive(Clone, Copy)]
pub enum Class {
    NamePart,
    Blank,
    InLine,
}

/// The character at this place, or NUL behind the end.
pub fn char_at(text: &[char], at: usize) -> char
    ensures { result ≡ slice_index text.now at }
{
    match text.get(at) {
        Some(c) => *c,
        None => '\0',
    }
}

pub fn starts_name(c: char) -> bool
    ensures { result ≡ starts_name c }
{
    unicode_ident::is_xid_start(c) || c == '_'
}

pub fn is_blank(c: char) -> bool
    ensures { result ≡ is_blank c }
{
    c == ' ' || c == '\t' || c == '\x0c'
}

pub fn ends_line(c: char) -> bool
    ensures { result ≡ ends_line c }
{
    c == '\n' || c == '\r'
}

pub fn is_quote(c: char) -> bool
    ensures { result ≡ is_quote c }
{
    c == '\'' || c == '"'
}

pub fn opens_bracket(c: char) -> bool
    ensures { result ≡ opens_bracket c }
{
    c == '(' || c == '[' || c == '{'
}

pub fn closes_bracket(c: char) -> bool
    ensures { result ≡ closes_bracket c }
{
    c == ')' || c == ']' || c == '}'
}

/// How many characters a line end has that begins with `c` and goes on with `d`; 0 where it is none.
pub fn end_len(c: char, d: char) -> usize
    ensures { result ≡ end_len c d }
{
    if c == '\r' && d == '\n' {
        2
    } else if ends_line(c) {
        1
    } else {
        0
    }
}

pub fn has(class: Class, c: char) -> bool
    ensures { result ≡ has class c }
{
    match class {
        Class::NamePart => unicode_ident::is_xid_continue(c),
        Class::Blank => is_blank(c),
        Class::InLine => !ends_line(c),
    }
}

/// How many characters at the front are of the class.
pub fn run_len(text: &[char], class: Class) -> usize
    ensures { IsLongestBy (every (has class)) result text.now }
{
    for (i, c) in text.iter().enumerate() {
        if !has(class, *c) {
            return i;
        }
    }
    text.len()
}
