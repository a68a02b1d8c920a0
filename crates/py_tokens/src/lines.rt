//! The logical lines of a cut text.
ghost use Rattle.std.specs.Prelude.{◌≡◌, ◌+◌, ◌^◌, ◌<◌, ◌≤◌, List, ◌∷◌, ◌++◌, [], length, IfOk, OnOk, not, find, filter_map, sum_by, slice_range, encode_utf8_all};
ghost use Rattle.std.specs.List.{All};
ghost use Rattle.py_tokens.specs.Width.{width, next_column};
ghost use Rattle.py_tokens.specs.Lines.{Group, is_gap, is_line_end, IsWithin, token_of, token_in, fault_kind, first_fault, is_wide, own_fault, end_of, line_of, blamed, mark, groups, placed};
ghost use Rattle.py_tokens.specs.BlockStack.{mark_in, told};
ghost use Rattle.py_tokens.specs.Spans.{IsLineIn};
ghost use Rattle.py_tokens.specs.declared.lines.Placed.{Placed};

use crate::blocks::enter;
use crate::ints::int_value;
use crate::kinds::{Gap, Kind, Piece, TokenFault, TokenKind};
use py_base::{List, NoMemory, Span, Text};
use std::alloc::Global;
use std::collections::VecDeque;

/// A token of a text.
#[derive(Debug, Drop)]
pub struct Token {
    pub kind: TokenKind,
    /// Where it stands, in characters.
    pub span: Span,
    /// Its spelling.
    pub text: Text,
}

/// A logical line: a statement's tokens, or as many of them as stand before a fault.
#[derive(Debug, Drop)]
pub struct LogicalLine {
    /// The tokens. Behind BadCharacter, UnclosedString and a bracket or field that is too deep
    /// there are none.
    pub tokens: List<Token>,
    /// From the first token, or from the fault where no token stands before it, to the end of its
    /// last physical line, without the line end; in characters.
    pub span: Span,
    /// The width of the blanks before: a tab goes to the next multiple of 8, a form feed back to 0.
    pub column: u32,
    /// The first fault in the line.
    pub fault: Option<TokenFault>,
}

/// A text as its logical lines.
#[derive(Debug, Drop)]
pub struct Cut {
    pub lines: List<LogicalLine>,
}

/// A piece and its place in the text, in characters.
#[derive(Clone, Copy)]
pub struct Placed {
    pub kind: Kind,
    pub from: u32,
    pub to: u32,
}

fn next_column(column: u32, c: char) -> u32
    requires { column < 2 ^ 31 }
    ensures value { result ≡ next_column column c }
    ensures near { result ≤ column + 8 }
{
    match c {
        ' ' => column + 1,
        '\t' => (column / 8 + 1) * 8,
        '\x0c' => 0,
        _ => column,
    }
}

// The width of the front of a line.
fn width(text: &[char]) -> u32
    requires { length text.now ≤ 2 ^ 20 }
    ensures { result ≡ width 0 text.now }
{
    let mut column = 0;
    for c in text {
        column = next_column(column, *c);
    }
    column
}

fn is_gap(kind: Kind) -> bool
    ensures { result ≡ is_gap kind }
{
    matches!(kind, Kind::Gap(_))
}

/// Whether a piece ends a logical line.
pub fn is_line_end(kind: Kind) -> bool
    ensures { result ≡ is_line_end kind }
{
    matches!(kind, Kind::Gap(Gap::LineEnd))
}

// The characters of a piece.
fn text_of(text: &[char], x: Placed) -> &[char]
    requires { IsWithin 0 (length text.now) x }
    ensures { result.now ≡ slice_range text.now x.from x.to }
{
    &text[x.from as usize..x.to as usize]
}

// A text of these characters, in a block that has room for all of them where they are ASCII.
fn spelled(alloc: Global, text: &[char]) -> Result<Text, NoMemory>
    ensures { IfOk result (λ t. t ≡ encode_utf8_all text.now) }
{
    let mut string = String::with_capacity(alloc, text.len())?;
    for c in text {
        string.push(*c)?;
    }
    Ok(Text::from_string(string))
}

fn token_of(alloc: Global, text: &[char], x: Placed, kind: TokenKind) -> Result<Token, NoMemory>
    requires { IsWithin 0 (length text.now) x }
    ensures { IfOk result (λ t. t ≡ token_of text.now x kind) }
{
    let spelling = spelled(alloc, text_of(text, x))?;
    Ok(Token {
        kind,
        span: Span {
            from: x.from,
            to: x.to,
        },
        text: spelling,
    })
}

// How many tokens a line has, so that their list is asked for once.
fn token_count(line: &[Placed]) -> usize {
    line.iter()
        .filter(|x| matches!(x.kind, Kind::Token(_)))
        .count()
}

// The tokens of a line.
fn tokens_of(
    alloc: Global,
    text: &[char],
    start: u32,
    line: &[Placed],
) -> Result<List<Token>, NoMemory>
    requires { All (IsWithin start (length text.now)) line.now }
    ensures { IfOk result (λ tokens. tokens ≡ filter_map (token_in text.now) line.now) }
{
    let mut tokens = List::from_vec(Vec::with_capacity(alloc, token_count(line))?);
    for x in line {
        if let Kind::Token(kind) = x.kind {
            tokens.push(token_of(alloc, text, *x, kind)?)?;
        }
    }
    Ok(tokens)
}

fn fault_kind(kind: Kind) -> Option<TokenFault>
    ensures { result ≡ fault_kind kind }
{
    match kind {
        Kind::Fault(fault) => Some(fault),
        Kind::Token(_) | Kind::Gap(_) => None,
    }
}

// The first fault among the pieces of a line.
fn first_fault(line: &[Placed]) -> Option<TokenFault>
    ensures { result ≡ first_fault line.now }
{
    for x in line {
        if let Some(fault) = fault_kind(x.kind) {
            return Some(fault);
        }
    }
    None
}

fn is_wide(token: &Token) -> bool
    ensures { result ≡ is_wide token.now }
{
    matches!(token.kind, TokenKind::Int) && int_value(token.text.as_str()).is_none()
}

fn own_fault(tokens: &[Token], fault: Option<TokenFault>) -> Option<TokenFault>
    ensures { result ≡ own_fault tokens.now fault }
{
    for token in tokens {
        if is_wide(token) {
            return Some(TokenFault::WideLiteral);
        }
    }
    fault
}

fn first_shown(line: &[Placed]) -> Option<Placed>
    ensures { result ≡ find (λ x. not (is_gap x.kind)) line.now }
{
    line.iter().copied().find(|x| !is_gap(x.kind))
}

fn end_of(line: &[Placed], at: u32) -> u32
    ensures { result ≡ end_of line.now at }
{
    let mut to = at;
    for x in line {
        to = x.to;
    }
    to
}

// The front of a line, before its first token.
fn indentation(text: &[char], start: u32, first: Placed) -> &[char]
    requires { IsWithin start (length text.now) first }
    ensures { result.now ≡ slice_range text.now start first.from }
{
    &text[start as usize..first.from as usize]
}

// The line of these pieces, which begins at `start`; `None` where they are gaps alone.
#[tactic(auto, using(crate::proofs::LineLaws::found_within))]
fn line_of(
    alloc: Global,
    text: &[char],
    start: u32,
    line: &[Placed],
) -> Result<Option<LogicalLine>, NoMemory>
    requires size { length text.now ≤ 2 ^ 20 }
    requires within { All (IsWithin start (length text.now)) line.now }
    ensures { IfOk result (λ found. found ≡ line_of text.now (record { start = start; pieces = line.now })) }
{
    match first_shown(line) {
        None => Ok(None),
        Some(first) => {
            let tokens = tokens_of(alloc, text, start, line)?;
            let fault = own_fault(tokens.as_slice(), first_fault(line));
            let column = width(indentation(text, start, first));
            let span = Span {
                from: first.from,
                to: end_of(line, first.to),
            };
            Ok(Some(LogicalLine {
                tokens,
                span,
                column,
                fault,
            }))
        }
    }
}

/// The lines of the pieces so far.
#[derive(Drop)]
struct Lines {
    done: List<LogicalLine>,
    /// The columns of the blocks that are open, the innermost first.
    blocks: VecDeque<u32>,
    /// Where the line that is not done begins.
    start: u32,
    /// Its pieces.
    line: Vec<Placed>,
}

// The fault of a line in its block comes first.
fn blamed(mut line: LogicalLine, block: Option<TokenFault>) -> LogicalLine
    ensures { result ≡ blamed line block }
{
    if block.is_some() {
        line.fault = block;
    }
    line
}

// The line that is not done is done.
fn end_line(alloc: Global, text: &[char], lines: &mut Lines) -> Result<(), NoMemory>
    requires size { length text.now ≤ 2 ^ 20 }
    requires within { All (IsWithin lines.old.start (length text.now)) lines.old.line.items }
    ensures told { OnOk result ((gs : List Group) → lines.new.done ++ mark_in lines.new.blocks.items (filter_map (line_of text.now) gs) ≡ lines.old.done ++ mark_in lines.old.blocks.items (filter_map (line_of text.now) (record { start = lines.old.start; pieces = lines.old.line.items } ∷ gs))) }
{
    if let Some(line) = line_of(alloc, text, lines.start, &lines.line)? {
        let block = enter(&mut lines.blocks, line.column)?;
        lines.done.push(blamed(line, block))?;
    }
    Ok(())
}

fn push_placed(line: &mut Vec<Placed>, x: Placed) -> Result<(), NoMemory>
    ensures { OnOk result (line.new.items ≡ line.old.items ++ x ∷ []) }
{
    line.push(x)?;
    Ok(())
}

// The next piece ends the line or joins it: with any pieces behind it, the lines are as before.
#[tactic(auto, using(crate::proofs::LineLaws::ends_group, crate::proofs::LineLaws::joins_group))]
fn add_piece(alloc: Global, text: &[char], lines: &mut Lines, x: Placed) -> Result<(), NoMemory>
    requires size { length text.now ≤ 2 ^ 20 }
    requires within { All (IsWithin lines.old.start (length text.now)) lines.old.line.items }
    requires next { IsWithin lines.old.start (length text.now) x }
    ensures told { OnOk result ((xs : List Placed) → told text.now lines.new.done lines.new.blocks.items lines.new.start lines.new.line.items x.to xs ≡ told text.now lines.old.done lines.old.blocks.items lines.old.start lines.old.line.items x.from (x ∷ xs)) }
    ensures within { OnOk result (All (IsWithin lines.new.start (length text.now)) lines.new.line.items) }
    ensures start { OnOk result (lines.new.start ≤ x.to) }
{
    if is_line_end(x.kind) {
        end_line(alloc, text, lines)?;
        lines.line.clear();
        lines.start = x.to;
        Ok(())
    } else {
        push_placed(&mut lines.line, x)
    }
}

/// The logical lines of a text that is cut into these pieces from `start` on.
pub fn lines_of(
    alloc: Global,
    text: &[char],
    start: usize,
    pieces: &[Piece],
) -> Result<List<LogicalLine>, NoMemory>
    requires size { length text.now ≤ 2 ^ 20 }
    requires within { start + sum_by (λ p. p.len) pieces.now ≤ length text.now }
    ensures lines { IfOk result (λ lines. lines ≡ mark [] (filter_map (line_of text.now) (groups start (placed start pieces.now)))) }
    ensures within { IfOk result (λ lines. All (IsLineIn (length text.now)) lines) }
{
    let mut at = start as u32;
    let mut lines = Lines {
        done: List::new(alloc),
        blocks: VecDeque::new(alloc),
        start: at,
        line: Vec::new(alloc),
    };
    for piece in pieces {
        let to = at + piece.len as u32;
        add_piece(
            alloc,
            text,
            &mut lines,
            Placed {
                kind: piece.kind,
                from: at,
                to,
            },
        )?;
        at = to;
    }
    end_line(alloc, text, &mut lines)?;
    let Lines {
        done,
        blocks: _,
        start: _,
        line: _,
    } = lines;
    Ok(done)
}
