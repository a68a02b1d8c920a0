//! The table of what may stand at a place, and the piece that stands there.
ghost use Rattle.std.specs.Prelude.{◌≡◌, ◌≤◌, length};
ghost use Rattle.py_tokens.specs.Fronts.{Answers};
ghost use Rattle.py_tokens.specs.Rows.{is_deepest, run_kind, opening_row, plain_row, token_row, line_end, join_row, code_row, text_row, row_at, row_kind, end_fault, text_fault, code_fault, fault_row, Fits};

use crate::chars::{
    Class, char_at, end_len, ends_line, has, is_blank, opens_bracket, run_len, starts_name,
};
use crate::kinds::{Gap, Kind, Piece, TokenFault, TokenKind};
use crate::numbers::InNumber;
use crate::signs::longest_sign;
use crate::states::{State, longest_from};
use crate::strings::{InString, InText, Opening, Quotes, closes_here, closing_len, string_opening};
use crate::words::{is_glued, word_kind};

/// How deep brackets and fields may be nested.
pub const DEPTH_LIMIT: usize = 64;

/// What is read at a place: code, where the flag says whether it stands directly in a field, or
/// the text of an f-string, where the flag says whether it is that of a format.
#[derive(Clone, Copy)]
pub enum Mode {
    Code(bool),
    Text(bool, Quotes),
}

/// What is known at a place from the text before it.
#[derive(Clone, Copy)]
pub struct Here {
    pub mode: Mode,
    /// Whether a bracket counts as open, or an f-string is open.
    pub is_open: bool,
    /// How many brackets and fields have opened, less one for each closing bracket.
    pub depth: usize,
    /// Whether a number ends here.
    pub after_number: bool,
}

/// A row of the table: the texts that may stand at a place.
#[derive(Clone, Copy)]
pub enum Row {
    /// The texts of this length, all of this kind.
    Exactly(usize, Kind),
    /// Runs of a class of characters.
    Run(Class),
    /// Numbers.
    Number,
    /// Strings and runs of text.
    Reads(State),
    /// Operators, where the flag says whether they stand directly in a field.
    Signs(bool),
    /// A character, whatever it is, and the rest of its line: skipped for this fault.
    Skipped(TokenFault),
    /// No character: the rest of the line is told by what follows.
    Stop(TokenFault),
    /// No text.
    Nothing,
}

fn is_deepest(here: Here) -> bool
    ensures { result ≡ is_deepest here }
{
    here.depth >= DEPTH_LIMIT
}

fn opening_row(opening: Opening) -> Row
    ensures { result ≡ opening_row opening }
{
    if opening.formatted {
        Row::Exactly(opening.len, Kind::Token(TokenKind::FStart))
    } else {
        Row::Reads(State::String(opening.quotes, InString::Opening(opening.len)))
    }
}

// The row of a token that is no string, or of blanks or a comment, by its first two characters.
fn plain_row(here: Here, in_field: bool, c: char, d: char) -> Row
    ensures { result ≡ plain_row here in_field c d }
{
    if starts_name(c) {
        Row::Run(Class::NamePart)
    } else if c.is_ascii_digit() || (c == '.' && d.is_ascii_digit()) {
        Row::Number
    } else if is_blank(c) {
        Row::Run(Class::Blank)
    } else if c == '#' {
        Row::Run(Class::InLine)
    } else if opens_bracket(c) && is_deepest(here) {
        Row::Nothing
    } else {
        Row::Signs(in_field)
    }
}

fn token_row(here: Here, in_field: bool, text: &[char]) -> Row
    ensures { result ≡ token_row here in_field text.now }
{
    match string_opening(text) {
        Some(opening) => opening_row(opening),
        None => plain_row(here, in_field, char_at(text, 0), char_at(text, 1)),
    }
}

fn line_end(here: Here) -> Kind
    ensures { result ≡ line_end here }
{
    Kind::Gap(if here.is_open {
        Gap::InnerEnd
    } else {
        Gap::LineEnd
    })
}

fn join_row(len: usize) -> Row
    requires { len ≤ 2 }
    ensures { result ≡ join_row len }
{
    if len > 0 {
        Row::Exactly(len + 1, Kind::Gap(Gap::Join))
    } else {
        Row::Nothing
    }
}

#[tactic(auto, unfolding(crate::specs::Rows::code_row))]
fn code_row(here: Here, in_field: bool, text: &[char]) -> Row
    ensures { result ≡ code_row here in_field text.now }
{
    let c = char_at(text, 0);
    let d = char_at(text, 1);
    if ends_line(c) {
        Row::Exactly(end_len(c, d), line_end(here))
    } else if c == '\\' {
        join_row(end_len(d, char_at(text, 2)))
    } else if here.after_number && is_glued(text) {
        Row::Nothing
    } else {
        token_row(here, in_field, text)
    }
}

#[tactic(auto, unfolding(crate::specs::Rows::text_row))]
fn text_row(here: Here, in_format: bool, quotes: Quotes, text: &[char]) -> Row
    ensures { result ≡ text_row here in_format quotes text.now }
{
    let c = char_at(text, 0);
    if closes_here(quotes, text) {
        Row::Exactly(closing_len(quotes), Kind::Token(TokenKind::FEnd))
    } else if in_format && c == '}' {
        Row::Exactly(1, Kind::Token(TokenKind::Operator))
    } else if c == '{' && char_at(text, 1) != '{' {
        if is_deepest(here) {
            Row::Nothing
        } else {
            Row::Exactly(1, Kind::Token(TokenKind::Operator))
        }
    } else {
        Row::Reads(State::Text(in_format, quotes, InText::Start))
    }
}

/// The row that begins here.
pub fn row_at(here: Here, text: &[char]) -> Row
    ensures { result ≡ row_at here text.now }
{
    match here.mode {
        Mode::Code(in_field) => code_row(here, in_field, text),
        Mode::Text(in_format, quotes) => text_row(here, in_format, quotes, text),
    }
}

fn run_kind(class: Class, text: &[char]) -> Kind
    ensures { result ≡ run_kind class text.now }
{
    match class {
        Class::NamePart => Kind::Token(word_kind(text)),
        Class::Blank => Kind::Gap(Gap::Blanks),
        Class::InLine => Kind::Gap(Gap::Comment),
    }
}

#[tactic(auto, using(crate::proofs::RowLaws::run_longest, crate::proofs::RowLaws::run_none))]
fn longest_run(class: Class, text: &[char]) -> Option<(usize, Kind)>
    ensures { Answers (row_kind (Row.Run class)) text.now result }
{
    let len = run_len(text, class);
    if len == 0 {
        None
    } else {
        Some((len, run_kind(class, &text[..len])))
    }
}

#[tactic(auto, using(crate::proofs::RowLaws::exact_longest, crate::proofs::RowLaws::exact_none))]
fn exactly(len: usize, kind: Kind, text: &[char]) -> Option<(usize, Kind)>
    ensures { Answers (row_kind (Row.Exactly len kind)) text.now result }
{
    if len == 0 || len > text.len() {
        None
    } else {
        Some((len, kind))
    }
}

#[tactic(auto, using(crate::proofs::RowLaws::skip_longest))]
fn skipped(fault: TokenFault, text: &[char]) -> Option<(usize, Kind)>
    ensures { Answers (row_kind (Row.Skipped fault)) text.now result }
{
    match text.split_first() {
        None => None,
        Some((_, rest)) => Some((run_len(rest, Class::InLine) + 1, Kind::Fault(fault))),
    }
}

// The longest number at the front.
#[tactic(auto, using(crate::proofs::NumberReader::number_answers))]
fn longest_number(text: &[char]) -> Option<(usize, Kind)>
    ensures { Answers (row_kind Row.Number) text.now result }
{
    longest_from(State::Number(InNumber::Start), text)
}

/// The longest front that is of the row.
#[tactic(auto, using(crate::proofs::RowLaws::stop_longest, crate::proofs::RowLaws::nothing_none))]
fn longest(row: Row, text: &[char]) -> Option<(usize, Kind)>
    ensures { Answers (row_kind row) text.now result }
{
    match row {
        Row::Exactly(len, kind) => exactly(len, kind, text),
        Row::Run(class) => longest_run(class, text),
        Row::Number => longest_number(text),
        Row::Reads(state) => longest_from(state, text),
        Row::Signs(in_field) => longest_sign(in_field, text),
        Row::Skipped(fault) => skipped(fault, text),
        Row::Stop(fault) => Some((0, Kind::Fault(fault))),
        Row::Nothing => None,
    }
}

fn end_fault(mode: Mode, depth: usize) -> TokenFault
    ensures { result ≡ end_fault mode depth }
{
    match mode {
        Mode::Code(_) if depth > 0 => TokenFault::UnclosedBracket,
        Mode::Code(_) | Mode::Text(_, _) => TokenFault::UnclosedString,
    }
}

// The fault in the text of an f-string that cannot go on with this character.
fn text_fault(c: char) -> Row
    ensures { result ≡ text_fault c }
{
    if c == '{' {
        Row::Skipped(TokenFault::NestingLimit)
    } else if c == '}' {
        Row::Skipped(TokenFault::BadCharacter)
    } else if ends_line(c) {
        Row::Stop(TokenFault::UnclosedString)
    } else {
        Row::Skipped(TokenFault::UnclosedString)
    }
}

#[tactic(auto, unfolding(crate::specs::Rows::code_fault))]
fn code_fault(here: Here, text: &[char]) -> Row
    ensures { result ≡ code_fault here text.now }
{
    if here.after_number && is_glued(text) {
        return Row::Skipped(TokenFault::BadCharacter);
    }
    match string_opening(text) {
        Some(opening) => { Row::Reads(State::BeforeUnclosed(opening.quotes, opening.len)) }
        None if opens_bracket(char_at(text, 0)) => Row::Skipped(TokenFault::NestingLimit),
        None => Row::Skipped(TokenFault::BadCharacter),
    }
}

/// What is skipped where no token begins.
pub fn fault_row(here: Here, text: &[char]) -> Row
    ensures { result ≡ fault_row here text.now }
{
    if text.is_empty() {
        return Row::Stop(end_fault(here.mode, here.depth));
    }
    match here.mode {
        Mode::Code(_) => code_fault(here, text),
        Mode::Text(_, _) => text_fault(char_at(text, 0)),
    }
}

/// The piece that stands here.
#[tactic(auto, using(crate::proofs::RowLaws::fault_none))]
pub fn piece_at(here: Here, text: &[char]) -> Piece
    ensures fits { Fits here text.now result }
    ensures within { result.len ≤ length text.now }
{
    if let Some((len, kind)) = longest(row_at(here, text), text) {
        return Piece { kind, len };
    }
    match longest(fault_row(here, text), text) {
        Some((len, kind)) => Piece { kind, len },
        None => unreachable!(),
    }
}
